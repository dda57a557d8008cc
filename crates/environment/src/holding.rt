// What is known of databases follows a change of the catalog.
ghost use Rattle.std.specs.Prelude.{◌≡◌, ◌+◌, ℕ, List, None, Some, true, false, OnOk, OnErr, IfOk, IfSome, option_map};
ghost use Rattle.index_map.specs.Made.{Made};
ghost use Rattle.index_map.specs.Map.{HasIndexes};
ghost use Rattle.db_names.specs.Names.{HasNames, Names};
ghost use Rattle.environment.specs.Catalog.{IsHeldFor, indexed_next, is_logged, made_held, named_next, next_db, made_gone, names_gone, names_held, names_renamed};

use crate::held::Held;
use db_names::DbNames;
use index_map::{FoundIndex, IndexMap};
use je_order::{Word, copy_of};
use std::alloc::{AllocError, Global};
use store_model::{Answer, Call, Extract};

// Gives the next database number this name, if there is one.
fn hold_name(names: &mut DbNames, last_db: u32, db: &Word) -> Result<Option<u32>, AllocError>
    ensures number { IfOk result (λ made. made ≡ next_db last_db) }
    ensures ok { (was : Names) → HasNames was names.old → OnOk result (HasNames (named_next last_db db.now was) names.new) }
    ensures err { (was : Names) → HasNames was names.old → OnErr result (HasNames was names.new) }
{
    let Some(number) = last_db.checked_add(1) else {
        return Ok(None);
    };
    let name = copy_of(db)?;
    names.put(number, name)?;
    Ok(Some(number))
}

// The same for a new index, whose primary has this number.
fn hold_index(
    alloc: Global,
    names: &mut DbNames,
    indexes: &mut IndexMap,
    last_db: u32,
    db: &Word,
    primary: Option<u32>,
    extract: Extract,
) -> Result<Option<u32>, AllocError>
    ensures number { IfOk result (λ made. made ≡ next_db last_db) }
    ensures names_ok { (was : Names) → HasNames was names.old → OnOk result (HasNames (named_next last_db db.now was) names.new) }
    ensures names_err { (was : Names) → HasNames was names.old → was (last_db + 1) ≡ None → OnErr result (HasNames was names.new) }
    ensures indexes_ok { (made : Made) → HasIndexes made indexes.old → made (last_db + 1) ≡ None → OnOk result (HasIndexes (indexed_next last_db primary extract made) indexes.new) }
    ensures indexes_err { (made : Made) → HasIndexes made indexes.old → made (last_db + 1) ≡ None → OnErr result (HasIndexes made indexes.new) }
{
    let Some(number) = hold_name(names, last_db, db)? else {
        return Ok(None);
    };
    let Some(primary) = primary else {
        return Ok(Some(number));
    };
    match indexes.add(alloc, primary, FoundIndex { number, extract }) {
        Ok(()) => Ok(Some(number)),
        Err(error) => {
            names.remove(number);
            Err(error)
        }
    }
}

/// What a change of the catalog changes, where its database has this number, or that which it makes an index of: the name of a new one is
/// known from now on, and that it is an index. Out of memory changes nothing.
pub(crate) fn hold(
    alloc: Global,
    names: &mut DbNames,
    indexes: &mut IndexMap,
    last_db: u32,
    call: &Call,
    number: Option<u32>,
) -> Result<Held, AllocError>
    ensures held { IfOk result (IsHeldFor last_db number call.now) }
    ensures names_ok { (was : Names) → HasNames was names.old → OnOk result (HasNames (names_held last_db call.now was) names.new) }
    ensures names_err { (was : Names) → HasNames was names.old → was (last_db + 1) ≡ None → OnErr result (HasNames was names.new) }
    ensures indexes_ok { (made : Made) → HasIndexes made indexes.old → made (last_db + 1) ≡ None → OnOk result (HasIndexes (made_held last_db number call.now made) indexes.new) }
    ensures indexes_err { (made : Made) → HasIndexes made indexes.old → made (last_db + 1) ≡ None → OnErr result (HasIndexes made indexes.new) }
{
    match call {
        Call::Create { db, .. } => Ok(Held {
            made: hold_name(names, last_db, db)?,
            gone: None,
            renamed: None,
        }),
        Call::CreateIndex { db, index } => Ok(Held {
            made: hold_index(alloc, names, indexes, last_db, db, number, index.extract)?,
            gone: None,
            renamed: None,
        }),
        Call::Remove { .. } => Ok(Held {
            made: None,
            gone: number,
            renamed: None,
        }),
        Call::Rename { to, .. } => hold_other(number, to),
        Call::Truncate { db } => Ok(Held {
            made: hold_name(names, last_db, db)?,
            gone: number,
            renamed: None,
        }),
        _ => Ok(Held {
            made: None,
            gone: None,
            renamed: None,
        }),
    }
}

// Another name for the database of a number.
fn hold_other(number: Option<u32>, to: &Word) -> Result<Held, AllocError>
    ensures { IfOk result (λ held. held ≡ record { made = None; gone = None; renamed = option_map (λ n. (n, to.now)) number }) }
{
    let Some(number) = number else {
        return Ok(Held {
            made: None,
            gone: None,
            renamed: None,
        });
    };
    let name = copy_of(to)?;
    Ok(Held {
        made: None,
        gone: None,
        renamed: Some((number, name)),
    })
}

// Takes what is known of a database away: one that goes, or one that was to be made.
fn forget(names: &mut DbNames, indexes: &mut IndexMap, gone: Option<u32>)
    ensures names { (was : Names) → HasNames was names.old → HasNames (names_gone gone was) names.new }
    ensures indexes { (made : Made) → HasIndexes made indexes.old → HasIndexes (made_gone gone made) indexes.new }
{
    if let Some(number) = gone {
        names.remove(number);
        indexes.remove(number);
    }
}

// Gives a database another name, if one gets it.
fn rename(names: &mut DbNames, renamed: Option<(u32, Word)>)
    ensures { (was : Names) → HasNames was names.old → IfSome renamed (λ r. (name : List ℕ) × (was r.0 ≡ Some name)) → HasNames (names_renamed renamed was) names.new }
{
    if let Some((number, name)) = renamed {
        names.rename(number, name);
    }
}

/// Whether changes were logged.
pub(crate) fn was_logged(logged: &Result<Answer, AllocError>) -> bool
    ensures { result ≡ is_logged logged.now }
{
    matches!(logged, Ok(Answer::Logged { .. }))
}

/// What is known follows the change, or is as before it. It takes no memory.
pub(crate) fn settle(names: &mut DbNames, indexes: &mut IndexMap, held: Held, logged: bool)
    ensures done { logged ≡ true → (was : Names) → HasNames was names.old → IfSome held.renamed (λ r. (name : List ℕ) × (names_gone held.gone was r.0 ≡ Some name)) → HasNames (names_renamed held.renamed (names_gone held.gone was)) names.new }
    ensures less { logged ≡ true → (made : Made) → HasIndexes made indexes.old → HasIndexes (made_gone held.gone made) indexes.new }
    ensures undone { logged ≡ false → (was : Names) → HasNames was names.old → HasNames (names_gone held.made was) names.new }
    ensures restored { logged ≡ false → (made : Made) → HasIndexes made indexes.old → HasIndexes (made_gone held.made made) indexes.new }
{
    let Held {
        made,
        gone,
        renamed,
    } = held;
    if logged {
        forget(names, indexes, gone);
        rename(names, renamed);
    } else {
        forget(names, indexes, made);
        drop(renamed);
    }
}
