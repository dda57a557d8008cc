// A store after changes, as a copy.
ghost use Rattle.std.specs.Prelude.{◌≡◌, [], IfOk, map, option_map, if◌then◌else◌};
ghost use Rattle.std.specs.Option.{option_copied};
ghost use Rattle.store_model.specs.Store.{pair_for, pairs_changed, all_pairs_changed, database_of, pairs_with, pairs_without, with_pairs, with_name, with_primary, index_renamed, new_database, in_database, databases_with, databases_without, databases_renamed, changed, all_changed};
ghost use Rattle.je_order.specs.Order.{is_same_bytes as is_same_text};

use je_order::{List, Name, Octets, Word, cmp_bytes, copy_of};
use record_eval::{cmp_pair, copies_where, proper_name, with_item};
use std::alloc::{AllocError, Global};
use store_model::{Change, Database, Index, Kind, RecordChange, Store};

// Whether two byte strings are the same.
fn same_bytes(a: &[u8], b: &[u8]) -> bool
    ensures { result ≡ is_same_text a.now b.now }
{
    cmp_bytes(a, b).is_eq()
}

/// The database of that name.
pub fn find_database<'a>(store: &'a Store, name: &Word) -> Option<&'a Database>
    ensures { option_copied result ≡ database_of name.now store.now }
{
    store
        .databases
        .as_slice()
        .iter()
        .find(|d| same_bytes(d.name.as_slice(), name.as_slice()))
}

/// The record of a name that is set to data.
fn pair_for(kind: Kind, at: &Name, value: &Octets) -> Result<(Octets, Octets), AllocError>
    ensures { IfOk result (λ pair. pair ≡ pair_for kind at.now value.now) }
{
    match kind {
        Kind::Plain => Ok((copy_of(&at.key)?, copy_of(value)?)),
        Kind::Dup => Ok((copy_of(&at.key)?, copy_of(&at.dup)?)),
    }
}

/// The pairs with the name set to the data.
pub fn set_pair(
    alloc: Global,
    kind: Kind,
    at: &Name,
    value: &Octets,
    pairs: &[(Octets, Octets)],
) -> Result<List<(Octets, Octets)>, AllocError>
    ensures { IfOk result (λ list. list ≡ pairs_with kind at.now value.now pairs.now) }
{
    let new = pair_for(kind, at, value)?;
    let name = proper_name(alloc, kind, at)?;
    with_item(
        alloc,
        pairs,
        |pair: &(Octets, Octets)| cmp_pair(kind, pair, &name).is_lt(),
        new,
        |pair: &(Octets, Octets)| cmp_pair(kind, pair, &name).is_gt(),
    )
}

/// The pairs without the name.
pub fn unset_pair(
    alloc: Global,
    kind: Kind,
    at: &Name,
    pairs: &[(Octets, Octets)],
) -> Result<List<(Octets, Octets)>, AllocError>
    ensures { IfOk result (λ list. list ≡ pairs_without kind at.now pairs.now) }
{
    let name = proper_name(alloc, kind, at)?;
    copies_where(alloc, pairs, |pair: &(Octets, Octets)| {
        !cmp_pair(kind, pair, &name).is_eq()
    })
}

/// The pairs after changes, in order.
pub fn pairs_after(
    alloc: Global,
    kind: Kind,
    changes: &[RecordChange],
    pairs: &[(Octets, Octets)],
) -> Result<List<(Octets, Octets)>, AllocError>
    ensures { IfOk result (λ list. list ≡ all_pairs_changed kind changes.now pairs.now) }
{
    let mut now = copies_where(alloc, pairs, |_pair: &(Octets, Octets)| true)?;
    for change in changes {
        now = after_one(alloc, kind, change, now.as_slice())?;
    }
    Ok(now)
}

fn after_one(
    alloc: Global,
    kind: Kind,
    change: &RecordChange,
    pairs: &[(Octets, Octets)],
) -> Result<List<(Octets, Octets)>, AllocError>
    ensures { IfOk result (λ list. list ≡ pairs_changed kind change.now pairs.now) }
{
    match change {
        RecordChange::Set { at, value } => set_pair(alloc, kind, at, value, pairs),
        RecordChange::Unset { at } => unset_pair(alloc, kind, at, pairs),
    }
}

/// A copy of what a database is an index of, if it is one.
fn copy_index(index: Option<&Index>) -> Result<Option<Index>, AllocError>
    ensures { IfOk result (λ copy. copy ≡ option_copied index.entry) }
{
    match index {
        Some(index) => Ok(Some(copy_of(index)?)),
        None => Ok(None),
    }
}

/// A copy of the database with other pairs.
fn copy_with(d: &Database, pairs: List<(Octets, Octets)>) -> Result<Database, AllocError>
    ensures { IfOk result (λ copy. copy ≡ with_pairs d.now pairs) }
{
    let name = copy_of(&d.name)?;
    let kind = d.kind;
    let index = copy_index(d.index.as_ref())?;
    Ok(Database {
        name,
        kind,
        index,
        pairs,
    })
}

/// A copy of the database, with the name set to the data if it is the database of that name.
fn set_in(
    alloc: Global,
    d: &Database,
    db: &Word,
    at: &Name,
    value: &Octets,
) -> Result<Database, AllocError>
    ensures { IfOk result (λ copy. copy ≡ (if is_same_text d.now.name db.now
        then with_pairs d.now (pairs_with d.now.kind at.now value.now d.now.pairs)
        else d.now)) }
{
    if same_bytes(d.name.as_slice(), db.as_slice()) {
        copy_with(d, set_pair(alloc, d.kind, at, value, d.pairs.as_slice())?)
    } else {
        copy_of(d)
    }
}

/// A copy of the database, without the name if it is the database of that name.
fn unset_in(alloc: Global, d: &Database, db: &Word, at: &Name) -> Result<Database, AllocError>
    ensures { IfOk result (λ copy. copy ≡ (if is_same_text d.now.name db.now
        then with_pairs d.now (pairs_without d.now.kind at.now d.now.pairs)
        else d.now)) }
{
    if same_bytes(d.name.as_slice(), db.as_slice()) {
        copy_with(d, unset_pair(alloc, d.kind, at, d.pairs.as_slice())?)
    } else {
        copy_of(d)
    }
}

fn set_in_each(
    alloc: Global,
    databases: &[Database],
    db: &Word,
    at: &Name,
    value: &Octets,
) -> Result<List<Database>, AllocError>
    ensures { IfOk result (λ list.
        list ≡ in_database db.now (λ d. with_pairs d (pairs_with d.kind at.now value.now d.pairs)) databases.now) }
{
    let mut copies = Vec::new(alloc);
    for d in databases {
        copies.push(set_in(alloc, d, db, at, value)?)?;
    }
    Ok(List::from_vec(copies))
}

fn unset_in_each(
    alloc: Global,
    databases: &[Database],
    db: &Word,
    at: &Name,
) -> Result<List<Database>, AllocError>
    ensures { IfOk result (λ list.
        list ≡ in_database db.now (λ d. with_pairs d (pairs_without d.kind at.now d.pairs)) databases.now) }
{
    let mut copies = Vec::new(alloc);
    for d in databases {
        copies.push(unset_in(alloc, d, db, at)?)?;
    }
    Ok(List::from_vec(copies))
}

/// A copy of the database, without its records if it is the database of that name.
fn emptied(alloc: Global, d: &Database, db: &Word) -> Result<Database, AllocError>
    ensures { IfOk result (λ copy. copy ≡ (if is_same_text d.now.name db.now then with_pairs d.now [] else d.now)) }
{
    if same_bytes(d.name.as_slice(), db.as_slice()) {
        copy_with(d, List::new(alloc))
    } else {
        copy_of(d)
    }
}

fn empty_in_each(
    alloc: Global,
    databases: &[Database],
    db: &Word,
) -> Result<List<Database>, AllocError>
    ensures { IfOk result (λ list. list ≡ in_database db.now (λ d. with_pairs d []) databases.now) }
{
    let mut copies = Vec::new(alloc);
    for d in databases {
        copies.push(emptied(alloc, d, db)?)?;
    }
    Ok(List::from_vec(copies))
}

/// The databases without the one of that name.
fn remove_database(
    alloc: Global,
    databases: &[Database],
    db: &Word,
) -> Result<List<Database>, AllocError>
    ensures { IfOk result (λ list. list ≡ databases_without db.now databases.now) }
{
    copies_where(alloc, databases, |d: &Database| {
        !same_bytes(d.name.as_slice(), db.as_slice())
    })
}

/// A copy of the database under another name.
fn copy_named(d: &Database, to: &Word) -> Result<Database, AllocError>
    ensures { IfOk result (λ copy. copy ≡ with_name d.now to.now) }
{
    let name = copy_of(to)?;
    let kind = d.kind;
    let index = copy_index(d.index.as_ref())?;
    let pairs = copy_of(&d.pairs)?;
    Ok(Database {
        name,
        kind,
        index,
        pairs,
    })
}

/// A copy of what an index is made of, where its primary has another name if it is the one of that name.
fn index_named(index: &Index, db: &Word, to: &Word) -> Result<Index, AllocError>
    ensures { IfOk result (λ copy. copy ≡ index_renamed db.now to.now index.now) }
{
    let primary = if same_bytes(index.primary.as_slice(), db.as_slice()) {
        copy_of(to)?
    } else {
        copy_of(&index.primary)?
    };
    let extract = index.extract;
    Ok(Index { primary, extract })
}

fn any_index_named(index: Option<&Index>, db: &Word, to: &Word) -> Result<Option<Index>, AllocError>
    ensures { IfOk result (λ copy. copy ≡ option_map (index_renamed db.now to.now) (option_copied index.entry)) }
{
    match index {
        Some(index) => Ok(Some(index_named(index, db, to)?)),
        None => Ok(None),
    }
}

/// A copy of the database, by another name of its primary if that is the one of that name.
fn copy_with_primary(d: &Database, db: &Word, to: &Word) -> Result<Database, AllocError>
    ensures { IfOk result (λ copy. copy ≡ with_primary db.now to.now d.now) }
{
    let name = copy_of(&d.name)?;
    let kind = d.kind;
    let index = any_index_named(d.index.as_ref(), db, to)?;
    let pairs = copy_of(&d.pairs)?;
    Ok(Database {
        name,
        kind,
        index,
        pairs,
    })
}

fn rename_primaries(
    alloc: Global,
    databases: &[Database],
    db: &Word,
    to: &Word,
) -> Result<List<Database>, AllocError>
    ensures { IfOk result (λ list. list ≡ map (with_primary db.now to.now) databases.now) }
{
    let mut copies = Vec::new(alloc);
    for d in databases {
        copies.push(copy_with_primary(d, db, to)?)?;
    }
    Ok(List::from_vec(copies))
}

/// The databases with one of them, if it is there, under another name.
fn rename_database(
    alloc: Global,
    found: Option<&Database>,
    to: &Word,
    databases: &List<Database>,
) -> Result<List<Database>, AllocError>
    ensures { IfOk result (λ list. list ≡ databases_renamed (option_copied found.entry) to.now databases.now) }
{
    let Some(d) = found else {
        return copy_of(databases);
    };
    let new = copy_named(d, to)?;
    let others = remove_database(alloc, databases.as_slice(), &d.name)?;
    let all = add_database(alloc, new, others.as_slice())?;
    rename_primaries(alloc, all.as_slice(), &d.name, to)
}

/// The databases and one more, in order of the names.
fn add_database(
    alloc: Global,
    new: Database,
    databases: &[Database],
) -> Result<List<Database>, AllocError>
    ensures { IfOk result (λ list. list ≡ databases_with new databases.now) }
{
    let name = copy_of(&new.name)?;
    with_item(
        alloc,
        databases,
        |d: &Database| cmp_bytes(d.name.as_slice(), name.as_slice()).is_lt(),
        new,
        |d: &Database| cmp_bytes(d.name.as_slice(), name.as_slice()).is_gt(),
    )
}

/// A database without records.
fn empty_database(
    alloc: Global,
    db: &Word,
    kind: Kind,
    index: Option<&Index>,
) -> Result<Database, AllocError>
    ensures { IfOk result (λ d. d ≡ new_database db.now kind (option_copied index.entry)) }
{
    let name = copy_of(db)?;
    let index = copy_index(index)?;
    Ok(Database {
        name,
        kind,
        index,
        pairs: List::new(alloc),
    })
}

/// The databases and an empty one.
fn make_database(
    alloc: Global,
    databases: &[Database],
    db: &Word,
    kind: Kind,
    index: Option<&Index>,
) -> Result<List<Database>, AllocError>
    ensures { IfOk result (λ list. list ≡ databases_with (new_database db.now kind (option_copied index.entry)) databases.now) }
{
    let new = empty_database(alloc, db, kind, index)?;
    add_database(alloc, new, databases)
}

/// The databases after a change.
fn databases_after(
    alloc: Global,
    store: &Store,
    change: &Change,
) -> Result<List<Database>, AllocError>
    ensures { IfOk result (λ list. list ≡ (changed change.now store.now).databases) }
{
    let databases = store.databases.as_slice();
    match change {
        Change::Set { db, at, value } => set_in_each(alloc, databases, db, at, value),
        Change::Unset { db, at } => unset_in_each(alloc, databases, db, at),
        Change::Make { db, kind } => make_database(alloc, databases, db, *kind, None),
        Change::MakeIndex { db, index } => {
            make_database(alloc, databases, db, Kind::Dup, Some(index))
        }
        Change::Remove { db } => remove_database(alloc, databases, db),
        Change::Rename { db, to } => {
            rename_database(alloc, find_database(store, db), to, &store.databases)
        }
        Change::Empty { db } => empty_in_each(alloc, databases, db),
    }
}

/// The store after a change.
fn after_change(alloc: Global, store: &Store, change: &Change) -> Result<Store, AllocError>
    ensures { IfOk result (λ after. after ≡ changed change.now store.now) }
{
    let databases = databases_after(alloc, store, change)?;
    Ok(Store { databases })
}

/// The store after several changes, in order.
pub fn after_changes(alloc: Global, store: &Store, changes: &[Change]) -> Result<Store, AllocError>
    ensures { IfOk result (λ after. after ≡ all_changed changes.now store.now) }
{
    let mut now = copy_of(store)?;
    for change in changes {
        now = after_change(alloc, &now, change)?;
    }
    Ok(now)
}
