// Evaluation of a call on a store.
ghost use Rattle.std.specs.Prelude.{◌≡◌, map, IfOk};
ghost use Rattle.std.specs.Option.{option_copied};
ghost use Rattle.store_model.specs.Store.{change_in, all_changed};
ghost use Rattle.record_eval.specs.Looks.{evaluated_in};
ghost use Rattle.store_eval.specs.Outcomes.{database_of_records, outcome_in, records_outcome, outcome};

use crate::catalog::{eval_catalog, no_database};
use crate::changing::{after_changes, find_database};
use je_order::{List, Word, copy_of};
use record_eval::{Evaluation, eval_records};
use std::alloc::{AllocError, Global};
use store_model::{Answer, Call, Change, Database, RecordChange, Store};

/// What a call outside a transaction answers, and the store after it. It walks and copies the whole
/// store at each call, so it is for small stores. Of the refusals it knows NoDatabase alone: names that
/// are taken, kinds, limits, log room and numbers are asked elsewhere. It is for stores without indexes:
/// it keeps none up, and takes one for a database of its pairs. The only error is out of memory.
pub fn eval(alloc: Global, store: &Store, call: &Call) -> Result<(Answer, Store), AllocError>
    ensures answer { IfOk result (λ r. r.0 ≡ (outcome call.now store.now).answer) }
    ensures store { IfOk result (λ r. r.1 ≡ all_changed (outcome call.now store.now).changes store.now) }
{
    let (answer, changes) = outcome_of(alloc, store, call)?;
    let after = after_changes(alloc, store, changes.as_slice())?;
    Ok((answer, after))
}

/// The answer and the changes of a call.
fn outcome_of(
    alloc: Global,
    store: &Store,
    call: &Call,
) -> Result<(Answer, List<Change>), AllocError>
    ensures { IfOk result (λ r. record { answer = r.0; changes = r.1 } ≡ outcome call.now store.now) }
{
    match database_of_records(call) {
        None => eval_catalog(alloc, store, call),
        Some(db) => on_records(alloc, find_database(store, db), db, call),
    }
}

/// The database that a call on records names.
fn database_of_records(call: &Call) -> Option<&Word>
    ensures { option_copied result ≡ database_of_records call.now }
{
    match call {
        Call::Get { db, .. } => Some(db),
        Call::GetBoth { db, .. } => Some(db),
        Call::Put { db, .. } => Some(db),
        Call::Delete { db, .. } => Some(db),
        _ => None,
    }
}

/// A call on the records of a database, if it is there.
fn on_records(
    alloc: Global,
    found: Option<&Database>,
    db: &Word,
    call: &Call,
) -> Result<(Answer, List<Change>), AllocError>
    ensures { IfOk result (λ r. record { answer = r.0; changes = r.1 } ≡ records_outcome call.now db.now (option_copied found.entry)) }
{
    let Some(d) = found else {
        return Ok(no_database(alloc));
    };
    let evaluated = eval_records(alloc, d.kind, call, None, d.pairs.as_slice())?;
    outcome_in(alloc, db, evaluated)
}

fn outcome_in(
    alloc: Global,
    db: &Word,
    evaluated: Evaluation,
) -> Result<(Answer, List<Change>), AllocError>
    ensures { IfOk result (λ r. record { answer = r.0; changes = r.1 } ≡ outcome_in db.now (evaluated_in evaluated)) }
{
    match changes_in(alloc, db, evaluated.changes.as_slice()) {
        Ok(changes) => Ok((answer_of(evaluated), changes)),
        Err(error) => {
            drop(evaluated);
            Err(error)
        }
    }
}

fn answer_of(evaluated: Evaluation) -> Answer
    ensures { result ≡ evaluated.answer }
{
    let Evaluation {
        answer,
        answered: _,
        changes,
        place,
    } = evaluated;
    drop(changes);
    drop(place);
    answer
}

fn changes_in(
    alloc: Global,
    db: &Word,
    changes: &[RecordChange],
) -> Result<List<Change>, AllocError>
    ensures { IfOk result (λ list. list ≡ map (change_in db.now) changes.now) }
{
    let mut all = Vec::new(alloc);
    for change in changes {
        all.push(change_in(db, change)?)?;
    }
    Ok(List::from_vec(all))
}

/// A change of records as one of a database.
fn change_in(db: &Word, change: &RecordChange) -> Result<Change, AllocError>
    ensures { IfOk result (λ c. c ≡ change_in db.now change.now) }
{
    let db = copy_of(db)?;
    match change {
        RecordChange::Set { at, value } => {
            Ok(Change::Set {
                db,
                at: copy_of(at)?,
                value: copy_of(value)?,
            })
        }
        RecordChange::Unset { at } => {
            Ok(Change::Unset {
                db,
                at: copy_of(at)?,
            })
        }
    }
}
