// What comes with a change in the indexes of its database.
ghost use Rattle.std.specs.Prelude.{◌≡◌, ◌⊎◌, ◌++◌, [], true, map, IfOk, OnOk};
ghost use Rattle.std.specs.List.{flat_map};
ghost use Rattle.std.specs.Option.{option_copied};
ghost use Rattle.store_model.specs.declared.kind.Kind.TheVariants.{Plain as PlainKind};
ghost use Rattle.store_model.specs.declared.record_change.RecordChange.TheVariants.{Unset as Takes};
ghost use Rattle.store_model.specs.Store.{named, changed_name, data_after as data_left};
ghost use Rattle.store_model.specs.Indexes.{data_under as data_of, with_indexes, changed_through, all_changes as all_with};
ghost use Rattle.log_replay.specs.Rows.{are_right, pair_of};
ghost use Rattle.txn_views.specs.Seen.{seen_rows};
ghost use Rattle.index_map.specs.Laws.{index_at, indexes_at, over_of};
ghost use Rattle.txn_views.specs.Targets.{found_at, changing_at, seen_in, found_changes, pairs_in, indexes_with, AreReadable};

use crate::viewer::Viewer;
use crate::{DbChange, FoundIndex, FoundTarget, reading};
use db_catalog::FoundDb;
use je_order::{List, Name, Octets, copy_of};
use record_map::SortKey;
use record_tree::Records;
use secondary::index_changes;
use std::alloc::{AllocError, Global};
use store_model::{Kind, RecordChange};

/// The data that is seen under a key in the plain database of that number.
pub fn data_under<'a, T: Records>(
    trees: &'a T,
    alloc: Global,
    viewer: Viewer,
    db: u32,
    key: &[u8],
) -> Result<Option<&'a [u8]>, AllocError>
    requires right { are_right PlainKind (seen_rows viewer.level viewer.txn (T.cells trees.now db)) ≡ true }
    ensures { IfOk result (λ value. option_copied value ≡ data_of key.now (map (pair_of PlainKind) (seen_rows viewer.level viewer.txn (T.cells trees.now db)))) }
{
    let name = SortKey::plain(alloc, key)?;
    match reading::record(trees, viewer, db, &name) {
        Some((_, data)) => Ok(Some(data.as_slice())),
        None => Ok(None),
    }
}

// The name that a change is of.
fn name_of(change: &RecordChange) -> &Name
    ensures { result.now ≡ changed_name change.now }
{
    match change {
        RecordChange::Set { at, .. } => at,
        RecordChange::Unset { at } => at,
    }
}

// The data that a change leaves.
fn data_after(change: &RecordChange) -> Option<&[u8]>
    ensures { option_copied result ≡ data_left change.now }
{
    match change {
        RecordChange::Set { value, .. } => Some(value.as_slice()),
        RecordChange::Unset { .. } => None,
    }
}

// Puts what changes in an index at the end.
fn push_pairs(
    changes: &mut Vec<DbChange>,
    alloc: Global,
    index: FoundIndex,
    key: &[u8],
    old: Option<&[u8]>,
    new: Option<&[u8]>,
) -> Result<(), AllocError>
    ensures { OnOk result (changes.new.items ≡ changes.old.items ++ found_changes (pairs_in key.now (option_copied old.entry) (option_copied new.entry) (index_at index))) }
{
    let db = FoundDb {
        number: index.number,
        kind: Kind::Dup,
    };
    let pairs = index_changes(alloc, &index.extract, key, old, new)?;
    for change in pairs.into_vec() {
        changes.push(DbChange { db, change })?;
    }
    Ok(())
}

// Puts what changes in each index at the end.
fn push_all_pairs(
    changes: &mut Vec<DbChange>,
    alloc: Global,
    indexes: &[FoundIndex],
    key: &[u8],
    old: Option<&[u8]>,
    new: Option<&[u8]>,
) -> Result<(), AllocError>
    ensures { OnOk result (changes.new.items ≡ changes.old.items ++ found_changes (flat_map (pairs_in key.now (option_copied old.entry) (option_copied new.entry)) (indexes_at indexes.now))) }
{
    for index in indexes {
        push_pairs(changes, alloc, *index, key, old, new)?;
    }
    Ok(())
}

// What changes in the indexes of the plain database of a number with a change there.
fn pairs_with<T: Records>(
    trees: &T,
    alloc: Global,
    viewer: Viewer,
    db: u32,
    indexes: &[FoundIndex],
    change: &RecordChange,
) -> Result<Vec<DbChange>, AllocError>
    requires right { are_right PlainKind (seen_rows viewer.level viewer.txn (T.cells trees.now db)) ≡ true }
    ensures { IfOk result (λ pairs. pairs.items ≡ found_changes (indexes_with (indexes_at indexes.now) (map (pair_of PlainKind) (seen_rows viewer.level viewer.txn (T.cells trees.now db))) change.now)) }
{
    let mut pairs = Vec::new(alloc);
    let key = name_of(change).key.as_slice();
    let old = data_under(trees, alloc, viewer, db, key)?;
    push_all_pairs(&mut pairs, alloc, indexes, key, old, data_after(change))?;
    Ok(pairs)
}

// Puts changes at the end.
fn push_all(changes: &mut Vec<DbChange>, others: Vec<DbChange>) -> Result<(), AllocError>
    ensures { OnOk result (changes.new.items ≡ changes.old.items ++ others.items) }
{
    'others: for change in others {
        changes.push(change)?;
    }
    Ok(())
}

/// Puts a change at the end, and then what comes with it in the indexes of its database, one after another.
pub fn push_with_indexes<T: Records>(
    changes: &mut Vec<DbChange>,
    trees: &T,
    alloc: Global,
    viewer: Viewer,
    db: FoundDb,
    indexes: &[FoundIndex],
    change: RecordChange,
) -> Result<(), AllocError>
    requires right { are_right db.kind (seen_rows viewer.level viewer.txn (T.cells trees.now db.number)) ≡ true }
    requires plain { (db.kind ≡ PlainKind) ⊎ (indexes.now ≡ []) }
    ensures { OnOk result (changes.new.items ≡ changes.old.items ++ found_changes (with_indexes (found_at db) (indexes_at indexes.now) (seen_in viewer.level viewer.txn (T.cells trees.now) (found_at db)) change)) }
{
    if indexes.is_empty() {
        changes.push(DbChange { db, change })?;
        return Ok(());
    }
    let pairs = pairs_with(trees, alloc, viewer, db.number, indexes, &change)?;
    changes.push(DbChange { db, change })?;
    push_all(changes, pairs)
}

// A change through an index takes the primary's record out.
fn change_through(
    alloc: Global,
    over: Option<u32>,
    change: RecordChange,
) -> Result<RecordChange, AllocError>
    ensures { IfOk result (λ through. through ≡ changed_through (over_of over) change) }
{
    match over {
        None => Ok(change),
        Some(_) => unset_key(alloc, &name_of(&change).dup),
    }
}

fn unset_key(alloc: Global, key: &Octets) -> Result<RecordChange, AllocError>
    ensures { IfOk result (λ change. change ≡ Takes (named key.now [])) }
{
    Ok(RecordChange::Unset {
        at: Name {
            key: copy_of(key)?,
            dup: Octets::new(alloc),
        },
    })
}

// The database in which a call changes records.
fn changing(over: Option<u32>, db: FoundDb) -> FoundDb
    ensures { result ≡ changing_at over db }
{
    match over {
        None => db,
        Some(number) => FoundDb {
            number,
            kind: Kind::Plain,
        },
    }
}

/// All changes that come with those of a call: in the database or, through an index, in its primary, and in the
/// indexes.
pub fn all_changes<T: Records>(
    trees: &T,
    alloc: Global,
    viewer: Viewer,
    found: FoundTarget<'_>,
    changes: List<RecordChange>,
) -> Result<Vec<DbChange>, AllocError>
    requires { AreReadable viewer.level viewer.txn (T.cells trees.now) found }
    ensures { IfOk result (λ all. all.items ≡ found_changes (all_with (over_of found.entry.over) (found_at found.entry.db) (indexes_at found.entry.indexes.now) (seen_in viewer.level viewer.txn (T.cells trees.now)) changes)) }
{
    let db = changing(found.over, found.db);
    let mut all = Vec::new(alloc);
    'changes: for change in changes.into_vec() {
        let change = change_through(alloc, found.over, change)?;
        push_with_indexes(&mut all, trees, alloc, viewer, db, found.indexes, change)?;
    }
    Ok(all)
}
