// An index that is made.
ghost use Rattle.std.specs.Prelude.{◌≡◌, ◌++◌, ◌∷◌, [], map, IfOk, OnOk, Some};
ghost use Rattle.std.specs.Option.{option_copied};
ghost use Rattle.store_model.specs.Store.{Pair, named};
ghost use Rattle.store_model.specs.Indexes.{put_in, key_in, pairs_put};
ghost use Rattle.store_model.specs.Evaluation.{indexing};
ghost use Rattle.store_model.specs.declared.change.Change.TheVariants.{Set as Sets, MakeIndex as MakesIndex};

use crate::changing::pairs_after;
use je_order::{List, Name, Octets, Word, copy_of};
use secondary::key_in;
use std::alloc::{AllocError, Global};
use store_model::{Answer, Change, Database, Extract, Index, Kind, RecordChange};

// The pair that an index has for a record, if it has a key.
fn push_pair(
    changes: &mut Vec<RecordChange>,
    alloc: Global,
    extract: &Extract,
    row: &(Octets, Octets),
) -> Result<(), AllocError>
    ensures { OnOk result (changes.new.items ≡ changes.old.items ++ put_in row.now.0 (key_in extract.now row.now.1)) }
{
    let Some(key) = key_in(extract, row.1.as_slice()) else {
        return Ok(());
    };
    let key = Octets::from_slice(alloc, key)?;
    let dup = copy_of(&row.0)?;
    changes.push(RecordChange::Set {
        at: Name { key, dup },
        value: Octets::new(alloc),
    })?;
    Ok(())
}

fn pairs_put(
    alloc: Global,
    extract: &Extract,
    records: &[(Octets, Octets)],
) -> Result<List<RecordChange>, AllocError>
    ensures { IfOk result (λ changes. changes ≡ pairs_put extract.now records.now) }
{
    let mut changes = Vec::new(alloc);
    for row in records {
        push_pair(&mut changes, alloc, extract, row)?;
    }
    Ok(List::from_vec(changes))
}

// A pair as a change of the index of that name.
fn set_pair(alloc: Global, db: &Word, pair: &(Octets, Octets)) -> Result<Change, AllocError>
    ensures { IfOk result (λ change. change ≡ Sets db.now (named pair.now.0 pair.now.1) []) }
{
    let db = copy_of(db)?;
    let key = copy_of(&pair.0)?;
    let dup = copy_of(&pair.1)?;
    Ok(Change::Set {
        db,
        at: Name { key, dup },
        value: Octets::new(alloc),
    })
}

fn make_index(db: &Word, index: &Index) -> Result<Change, AllocError>
    ensures { IfOk result (λ change. change ≡ MakesIndex db.now index.now) }
{
    let db = copy_of(db)?;
    let index = copy_of(index)?;
    Ok(Change::MakeIndex { db, index })
}

fn filling(
    alloc: Global,
    db: &Word,
    index: &Index,
    pairs: &[(Octets, Octets)],
) -> Result<List<Change>, AllocError>
    ensures { IfOk result (λ changes. changes ≡ MakesIndex db.now index.now ∷ map (λ (p : Pair). Sets db.now (named p.0 p.1) []) pairs.now) }
{
    let mut changes = Vec::new(alloc);
    changes.push(make_index(db, index)?)?;
    for pair in pairs {
        changes.push(set_pair(alloc, db, pair)?)?;
    }
    Ok(List::from_vec(changes))
}

/// An index of a primary is made, and filled with its pairs.
pub fn index_of(
    alloc: Global,
    db: &Word,
    index: &Index,
    primary: &Database,
) -> Result<(Answer, List<Change>), AllocError>
    ensures { IfOk result (λ r. record { answer = r.0; changes = r.1 } ≡ indexing db.now index.now (Some primary.now)) }
{
    let puts = pairs_put(alloc, &index.extract, primary.pairs.as_slice())?;
    let none: Vec<(Octets, Octets)> = Vec::new(alloc);
    let pairs = pairs_after(alloc, Kind::Dup, puts.as_slice(), none.as_slice())?;
    let changes = filling(alloc, db, index, pairs.as_slice())?;
    Ok((Answer::Done, changes))
}
