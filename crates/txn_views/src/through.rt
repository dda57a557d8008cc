// What a call comes to on a database with indexes, or on an index.
ghost use Rattle.std.specs.Prelude.{◌≡◌, ◌++◌, map, IfOk, OnOk, IfSome};
ghost use Rattle.std.specs.List.{AllByRecursion, flat_map};
ghost use Rattle.std.specs.Option.{option_copied};
ghost use Rattle.store_model.specs.declared.kind.Kind.TheVariants.{Plain as PlainKind};
ghost use Rattle.store_model.specs.Records.{evaluation};
ghost use Rattle.store_model.specs.declared.answer.Answer.TheVariants.{Rec as Found};
ghost use Rattle.store_model.specs.Indexes.{index_answer, answer_through};
ghost use Rattle.store_model.specs.Needs.{record_needs};
ghost use Rattle.cursor_je.specs.Reaches.{part_in};
ghost use Rattle.txn_views.specs.declared.db_change.DbChange.{DbChange as Changed};
ghost use Rattle.index_map.specs.Laws.{db_at, over_of};
ghost use Rattle.txn_views.specs.Targets.{seen_in, needs_for, with_found_numbers, IsReadable, AreReadable, IsOutcomePlan, IsTargetPlan};

use crate::indexing::{all_changes, data_under};
use crate::txn_rows::TxnRows;
use crate::viewer::Viewer;
use crate::{DbChange, FoundTarget, OutcomePlan, TargetPlan};
use cursor_je::needing::{push_write, read_needs};
use cursor_je::plan;
use cursor_je::read_part::{ReadPart, part_of};
use db_catalog::FoundDb;
use je_order::{Bound, Name, Octets, TxnId, copy_of};
use record_tree::Records;
use std::alloc::{AllocError, Global};
use store_model::{Answer, Call, Isolation, Need, RecordChange};

// A record that was found in an index: its key there, its own key and its data.
fn index_record<T: Records>(
    trees: &T,
    alloc: Global,
    viewer: Viewer,
    db: u32,
    key: Octets,
    primary_key: Octets,
) -> Result<Answer, AllocError>
    requires { IsReadable viewer.level viewer.txn (T.cells trees.now) db PlainKind }
    ensures { IfOk result (λ answer. answer ≡ index_answer (db_at db PlainKind) (seen_in viewer.level viewer.txn (T.cells trees.now)) (Found key primary_key)) }
{
    let value = match data_under(trees, alloc, viewer, db, primary_key.as_slice())? {
        Some(data) => Octets::from_slice(alloc, data)?,
        None => Octets::new(alloc),
    };
    Ok(Answer::IndexRec {
        key,
        primary_key,
        value,
    })
}

// The answer of a call on an index, or on a database that is none.
fn answer_of<T: Records>(
    trees: &T,
    alloc: Global,
    viewer: Viewer,
    over: Option<u32>,
    answer: Answer,
) -> Result<Answer, AllocError>
    requires { IfSome over (λ db. IsReadable viewer.level viewer.txn (T.cells trees.now) db PlainKind) }
    ensures { IfOk result (λ through. through ≡ answer_through (over_of over) (seen_in viewer.level viewer.txn (T.cells trees.now)) answer) }
{
    let Some(db) = over else {
        return Ok(answer);
    };
    match answer {
        Answer::Rec { key, value } => index_record(trees, alloc, viewer, db, key, value),
        answer => Ok(answer),
    }
}

// Puts the need of the record that is read by an index at the end.
fn push_record(
    needs: &mut Vec<Need>,
    alloc: Global,
    part: Option<ReadPart>,
    over: Option<u32>,
    answer: &Answer,
) -> Result<(), AllocError>
    ensures { OnOk result (needs.new.items ≡ needs.old.items ++ record_needs (part_in part) (over_of over) answer.now) }
{
    let (Some(part), Some(db), Answer::Rec { value, .. }) = (part, over, answer) else {
        return Ok(());
    };
    needs.push(Need {
        db,
        at: Bound::At(Name {
            key: copy_of(value)?,
            dup: Octets::new(alloc),
        }),
        asked: part.inside,
    })?;
    Ok(())
}

// Puts the needs of a change at the end.
fn push_change<T: Records>(
    needs: &mut Vec<Need>,
    trees: &T,
    alloc: Global,
    viewer: Viewer,
    db: FoundDb,
    change: &DbChange,
) -> Result<(), AllocError>
    requires db { db ≡ change.now.db }
    requires readable { IsReadable viewer.level viewer.txn (T.cells trees.now) db.number db.kind }
    ensures { OnOk result (needs.new.items ≡ needs.old.items ++ needs_for viewer.level viewer.txn (T.cells trees.now) change.now) }
{
    let view = TxnRows {
        trees,
        number: db.number,
        kind: db.kind,
        viewer,
    };
    push_write(alloc, &view, needs, viewer.level, db.number, &change.change)
}

fn push_changes<T: Records>(
    needs: &mut Vec<Need>,
    trees: &T,
    alloc: Global,
    viewer: Viewer,
    changes: &[DbChange],
) -> Result<(), AllocError>
    requires { AllByRecursion (λ (c : Changed). IsReadable viewer.level viewer.txn (T.cells trees.now) c.db.number c.db.kind) changes.now }
    ensures { OnOk result (needs.new.items ≡ needs.old.items ++ flat_map (needs_for viewer.level viewer.txn (T.cells trees.now)) changes.now) }
{
    for change in changes {
        push_change(needs, trees, alloc, viewer, change.db, change)?;
    }
    Ok(())
}

// Changes with their databases' numbers.
fn with_numbers(
    alloc: Global,
    changes: Vec<DbChange>,
) -> Result<Vec<(u32, RecordChange)>, AllocError>
    ensures { IfOk result (λ own. own.items ≡ with_found_numbers changes.items) }
{
    let mut own = Vec::new(alloc);
    'changes: for change in changes {
        let DbChange { db, change } = change;
        own.push((db.number, change))?;
    }
    Ok(own)
}

/// What a call on the records of a database comes to for a transaction at a level, with its cursor at that place, where
/// the database has indexes or is one: the answer, all changes and the locks, all as the model has them. Refusals are
/// asked before; room in the log is not asked. It looks at the records and the occupied names that the call is about
/// alone, and at one record of the database for each change where there are indexes. The only error is out of memory.
pub fn plan_target<T: Records>(
    trees: &T,
    alloc: Global,
    txn: TxnId,
    level: Isolation,
    found: FoundTarget<'_>,
    call: &Call,
    at: Option<&Name>,
) -> Result<TargetPlan, AllocError>
    requires { AreReadable level txn (T.cells trees.now) found }
    ensures { IfOk result (IsTargetPlan level txn (T.cells trees.now) found.entry call.now (option_copied at.entry)) }
{
    let viewer = Viewer { txn, level };
    let db = found.db;
    let view = TxnRows {
        trees,
        number: db.number,
        kind: db.kind,
        viewer,
    };
    let planned = plan(alloc, &view, call, at)?;
    let mut needs = read_needs(alloc, &view, level, db.number, call, at, &planned)?;
    let part = part_of(level, call);
    push_record(&mut needs, alloc, part, found.over, &planned.answer)?;
    let changes = all_changes(trees, alloc, viewer, found, planned.changes)?;
    push_changes(&mut needs, trees, alloc, viewer, changes.as_slice())?;
    let answer = answer_of(trees, alloc, viewer, found.over, planned.answer)?;
    let own = with_numbers(alloc, changes)?;
    Ok(TargetPlan {
        answer,
        changes: own,
        needs,
        place: planned.place,
    })
}

/// The same for a call without a cursor, and without its locks: its answer and all changes. The only error is out of memory.
pub fn plan_outcome<T: Records>(
    trees: &T,
    alloc: Global,
    txn: TxnId,
    level: Isolation,
    found: FoundTarget<'_>,
    call: &Call,
) -> Result<OutcomePlan, AllocError>
    requires { AreReadable level txn (T.cells trees.now) found }
    ensures { IfOk result (IsOutcomePlan level txn (T.cells trees.now) found.entry call.now) }
{
    let viewer = Viewer { txn, level };
    let view = TxnRows {
        trees,
        number: found.db.number,
        kind: found.db.kind,
        viewer,
    };
    let planned = plan(alloc, &view, call, None)?;
    let changes = all_changes(trees, alloc, viewer, found, planned.changes)?;
    let answer = answer_of(trees, alloc, viewer, found.over, planned.answer)?;
    let own = with_numbers(alloc, changes)?;
    drop(planned.place);
    Ok(OutcomePlan {
        answer,
        changes: own,
    })
}
