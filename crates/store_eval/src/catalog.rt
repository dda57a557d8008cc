// Evaluation of the calls on the catalog.
ghost use Rattle.std.specs.Prelude.{◌≡◌, [], None, IfOk};
ghost use Rattle.store_model.specs.Store.{names_of};
ghost use Rattle.store_model.specs.Evaluation.{evaluation, emptying, changes_by};
ghost use Rattle.store_model.specs.declared.answer.Answer.TheVariants.{Names, NoDatabase};
ghost use Rattle.store_model.specs.declared.call.Call.TheVariants.{CreateIndex as CreatesIndex, Remove as Removes, Rename as Renames, Truncate};
ghost use Rattle.store_model.specs.declared.change.Change.TheVariants.{Make};
ghost use Rattle.store_eval.specs.Outcomes.{database_of_records};

use crate::changing::find_database;
use crate::indexing::index_of;
use je_order::{List, Word, copy_of};
use std::alloc::{AllocError, Global};
use store_model::{Answer, Call, Change, Database, Index, Kind, Store};

/// The answer and the changes of a call that is not on records.
pub fn eval_catalog(
    alloc: Global,
    store: &Store,
    call: &Call,
) -> Result<(Answer, List<Change>), AllocError>
    requires { database_of_records call.now ≡ None }
    ensures { IfOk result (λ r. record { answer = r.0; changes = r.1 } ≡ evaluation call.now store.now) }
{
    match call {
        Call::Create { db, kind } => create(alloc, db, kind),
        Call::CreateIndex { db, index } => create_index(alloc, store, db, index),
        Call::List => list(alloc, store),
        Call::Remove { db } => remove(alloc, store, db),
        Call::Rename { db, to } => rename(alloc, store, db, to),
        Call::Truncate { db } => truncate(alloc, store, db),
        Call::Get { .. } | Call::Put { .. } | Call::Delete { .. } => unreachable!(),
        _ => Ok((Answer::Done, List::new(alloc))),
    }
}

fn create(alloc: Global, db: &Word, kind: &Kind) -> Result<(Answer, List<Change>), AllocError>
    ensures { IfOk result (λ r. record { answer = r.0; changes = r.1 } ≡ changes_by (Make db.now kind.now)) }
{
    let change = Change::Make {
        db: copy_of(db)?,
        kind: *kind,
    };
    done_by(alloc, change)
}

fn list(alloc: Global, store: &Store) -> Result<(Answer, List<Change>), AllocError>
    ensures { IfOk result (λ r. r ≡ (Names (names_of store.now), [])) }
{
    let names = names_in(alloc, store)?;
    Ok((Answer::Names { names }, List::new(alloc)))
}

fn remove(alloc: Global, store: &Store, db: &Word) -> Result<(Answer, List<Change>), AllocError>
    ensures { IfOk result (λ r. record { answer = r.0; changes = r.1 } ≡ evaluation (Removes db.now) store.now) }
{
    let Some(_) = find_database(store, db) else {
        return Ok(no_database(alloc));
    };
    done_by(alloc, Change::Remove { db: copy_of(db)? })
}

fn rename(
    alloc: Global,
    store: &Store,
    db: &Word,
    to: &Word,
) -> Result<(Answer, List<Change>), AllocError>
    ensures { IfOk result (λ r. record { answer = r.0; changes = r.1 } ≡ evaluation (Renames db.now to.now) store.now) }
{
    let Some(_) = find_database(store, db) else {
        return Ok(no_database(alloc));
    };
    let change = Change::Rename {
        db: copy_of(db)?,
        to: copy_of(to)?,
    };
    done_by(alloc, change)
}

fn truncate(alloc: Global, store: &Store, db: &Word) -> Result<(Answer, List<Change>), AllocError>
    ensures { IfOk result (λ r. record { answer = r.0; changes = r.1 } ≡ evaluation (Truncate db.now) store.now) }
{
    match find_database(store, db) {
        None => Ok(no_database(alloc)),
        Some(d) => empty(alloc, db, d),
    }
}

fn empty(alloc: Global, db: &Word, d: &Database) -> Result<(Answer, List<Change>), AllocError>
    ensures { IfOk result (λ r. record { answer = r.0; changes = r.1 } ≡ emptying db.now d.now.index) }
{
    match &d.index {
        None => done_by(alloc, Change::Empty { db: copy_of(db)? }),
        Some(_) => Ok((Answer::ReadOnlyIndex, List::new(alloc))),
    }
}

fn create_index(
    alloc: Global,
    store: &Store,
    db: &Word,
    index: &Index,
) -> Result<(Answer, List<Change>), AllocError>
    ensures { IfOk result (λ r. record { answer = r.0; changes = r.1 } ≡ evaluation (CreatesIndex db.now index.now) store.now) }
{
    match find_database(store, &index.primary) {
        None => Ok(no_database(alloc)),
        Some(primary) => index_of(alloc, db, index, primary),
    }
}

/// There is no such database, and nothing changes.
pub fn no_database(alloc: Global) -> (Answer, List<Change>)
    ensures { result ≡ (NoDatabase, []) }
{
    (Answer::NoDatabase, List::new(alloc))
}

/// The names of a store's databases, in order.
fn names_in(alloc: Global, store: &Store) -> Result<List<Word>, AllocError>
    ensures { IfOk result (λ names. names ≡ names_of store.now) }
{
    let mut names = Vec::new(alloc);
    for d in store.databases.as_slice() {
        names.push(copy_of(&d.name)?)?;
    }
    Ok(List::from_vec(names))
}

fn done_by(alloc: Global, change: Change) -> Result<(Answer, List<Change>), AllocError>
    ensures { IfOk result (λ r. record { answer = r.0; changes = r.1 } ≡ changes_by change) }
{
    let mut changes = List::new(alloc);
    changes.push(change)?;
    Ok((Answer::Done, changes))
}
