// What a call on the catalog comes to.
ghost use Rattle.std.specs.Prelude.{◌≡◌, ◌∷◌, [], List as Items, true, IfOk, is_some, length};
ghost use Rattle.std.specs.List.{list_any};
ghost use Rattle.store_model.specs.Store.{database_of};
ghost use Rattle.store_model.specs.Indexes.{is_index_of};
ghost use Rattle.store_model.specs.Evaluation.{answers, changes_by};
ghost use Rattle.store_model.specs.declared.call.Call.{Call as Planned};
ghost use Rattle.store_model.specs.declared.change.Change.{Change as Changes};
ghost use Rattle.store_model.specs.declared.call.Call.TheVariants.{Create, CreateIndex, List as Lists, Remove as Removes, Rename as Renames, Truncate};
ghost use Rattle.db_catalog.specs.Planning.{is_catalog_call, outcome_of, catalog_part, truncation, index_creation, is_primary_record, logged_as, kind_in_catalog, index_in_catalog, indexed, moved, renewed, IsCatalogLog};

use crate::{CatalogChange, CatalogView, DbKind, DbRecord, index_of};
use je_order::{List, Word, copy_of};
use std::alloc::{AllocError, Global};
use store_model::{Answer, Call, Change, Extract, Index, Kind, MOST_DATABASES};

/// What a call comes to: its answer, and the changes that it makes, in order.
#[derive(Drop)]
pub struct CatalogPlan {
    pub answer: Answer,
    pub changes: List<Change>,
}

// An answer that changes nothing.
fn answer_only(alloc: Global, answer: Answer) -> CatalogPlan
    ensures { record { answer = result.answer; changes = result.changes } ≡ answers answer }
{
    CatalogPlan {
        answer,
        changes: List::new(alloc),
    }
}

// A call that is done by one change.
fn one_change(alloc: Global, change: Change) -> Result<CatalogPlan, AllocError>
    ensures { IfOk result (λ plan. record { answer = plan.answer; changes = plan.changes } ≡ changes_by change) }
{
    let mut changes = List::new(alloc);
    changes.push(change)?;
    Ok(CatalogPlan {
        answer: Answer::Done,
        changes,
    })
}

fn plan_create<V: CatalogView>(
    alloc: Global,
    view: &V,
    db: &Word,
    kind: &Kind,
) -> Result<CatalogPlan, AllocError>
    ensures { IfOk result (λ plan. record { answer = plan.answer; changes = plan.changes } ≡ outcome_of (Create db.now kind.now) (V.seen view.now)) }
{
    if view.has(alloc, db)? {
        return Ok(answer_only(alloc, Answer::NameTaken));
    }
    if MOST_DATABASES as usize <= view.count() {
        let count = MOST_DATABASES;
        return Ok(answer_only(alloc, Answer::TooMany { count }));
    }
    let change = Change::Make {
        db: copy_of(db)?,
        kind: copy_of(kind)?,
    };
    one_change(alloc, change)
}

fn plan_list<V: CatalogView>(alloc: Global, view: &V) -> Result<CatalogPlan, AllocError>
    ensures { IfOk result (λ plan. record { answer = plan.answer; changes = plan.changes } ≡ outcome_of Lists (V.seen view.now)) }
{
    let names = view.names(alloc)?;
    Ok(answer_only(alloc, Answer::Names { names }))
}

fn plan_remove<V: CatalogView>(
    alloc: Global,
    view: &V,
    db: &Word,
) -> Result<CatalogPlan, AllocError>
    ensures { IfOk result (λ plan. record { answer = plan.answer; changes = plan.changes } ≡ outcome_of (Removes db.now) (V.seen view.now)) }
{
    if !view.has(alloc, db)? {
        return Ok(answer_only(alloc, Answer::NoDatabase));
    }
    if view.is_indexed(alloc, db)? {
        return Ok(answer_only(alloc, Answer::HasIndex));
    }
    let change = Change::Remove { db: copy_of(db)? };
    one_change(alloc, change)
}

fn plan_rename<V: CatalogView>(
    alloc: Global,
    view: &V,
    db: &Word,
    to: &Word,
) -> Result<CatalogPlan, AllocError>
    ensures { IfOk result (λ plan. record { answer = plan.answer; changes = plan.changes } ≡ outcome_of (Renames db.now to.now) (V.seen view.now)) }
{
    if !view.has(alloc, db)? {
        return Ok(answer_only(alloc, Answer::NoDatabase));
    }
    if view.has(alloc, to)? {
        return Ok(answer_only(alloc, Answer::NameTaken));
    }
    let change = Change::Rename {
        db: copy_of(db)?,
        to: copy_of(to)?,
    };
    one_change(alloc, change)
}

fn plan_truncate<V: CatalogView>(
    alloc: Global,
    view: &V,
    db: &Word,
) -> Result<CatalogPlan, AllocError>
    ensures { IfOk result (λ plan. record { answer = plan.answer; changes = plan.changes } ≡ outcome_of (Truncate db.now) (V.seen view.now)) }
{
    truncate_by(alloc, view, db)
}

// What a truncation comes to, by the catalog's record.
fn truncate_by<V: CatalogView>(
    alloc: Global,
    view: &V,
    db: &Word,
) -> Result<CatalogPlan, AllocError>
    ensures { IfOk result (λ plan. record { answer = plan.answer; changes = plan.changes } ≡ truncation db.now (V.record_of view.now db.now) (list_any (is_index_of db.now) (V.seen view.now).databases)) }
{
    let Some(row) = view.row(alloc, db)? else {
        return Ok(answer_only(alloc, Answer::NoDatabase));
    };
    if view.is_indexed(alloc, db)? {
        return Ok(answer_only(alloc, Answer::HasIndex));
    }
    if index_of(&row.kind).is_some() {
        return Ok(answer_only(alloc, Answer::ReadOnlyIndex));
    }
    let change = Change::Empty { db: copy_of(db)? };
    one_change(alloc, change)
}

// Whether an index may be of the database of a record.
fn is_primary(row: Option<DbRecord>) -> bool
    ensures { result ≡ is_primary_record row }
{
    match row {
        Some(row) => matches!(row.kind, DbKind::Plain),
        None => false,
    }
}

// What the making of an index comes to, by the catalog's records.
fn create_index_by<V: CatalogView>(
    alloc: Global,
    view: &V,
    db: &Word,
    index: &Index,
) -> Result<CatalogPlan, AllocError>
    ensures { IfOk result (λ plan. record { answer = plan.answer; changes = plan.changes } ≡ index_creation db.now index.now (V.record_of view.now index.now.primary) (is_some (database_of db.now (V.seen view.now))) (length (V.seen view.now).databases)) }
{
    if !is_primary(view.row(alloc, &index.primary)?) {
        return Ok(answer_only(alloc, Answer::NoDatabase));
    }
    if view.has(alloc, db)? {
        return Ok(answer_only(alloc, Answer::NameTaken));
    }
    if MOST_DATABASES as usize <= view.count() {
        let count = MOST_DATABASES;
        return Ok(answer_only(alloc, Answer::TooMany { count }));
    }
    let change = Change::MakeIndex {
        db: copy_of(db)?,
        index: copy_of(index)?,
    };
    one_change(alloc, change)
}

/// What the making of an index comes to in the catalog: the model's answer on the store that the view
/// sees, refusals first, and the first of the model's changes, by which the index is made. Those that
/// fill it come behind that: a pair for each record of its primary that has a key. The only error is
/// out of memory.
pub fn plan_index<V: CatalogView>(
    alloc: Global,
    view: &V,
    db: &Word,
    index: &Index,
) -> Result<CatalogPlan, AllocError>
    ensures { IfOk result (λ plan. record { answer = plan.answer; changes = plan.changes } ≡ catalog_part (outcome_of (CreateIndex db.now index.now) (V.seen view.now))) }
{
    create_index_by(alloc, view, db, index)
}

/// What a call on the catalog alone comes to: the model's answer and changes on the store that the view
/// sees, refusals first. An index is made by `plan_index`. Room in the log and numbers are not asked here. The only error is out of
/// memory.
pub fn plan<V: CatalogView>(alloc: Global, view: &V, call: &Call) -> Result<CatalogPlan, AllocError>
    requires { is_catalog_call call.now ≡ true }
    ensures { IfOk result (λ plan. record { answer = plan.answer; changes = plan.changes } ≡ outcome_of call.now (V.seen view.now)) }
{
    match call {
        Call::Create { db, kind } => plan_create(alloc, view, db, kind),
        Call::List => plan_list(alloc, view),
        Call::Remove { db } => plan_remove(alloc, view, db),
        Call::Rename { db, to } => plan_rename(alloc, view, db, to),
        Call::Truncate { db } => plan_truncate(alloc, view, db),
        _ => unreachable!(),
    }
}

fn one_record(alloc: Global, change: CatalogChange) -> Result<List<CatalogChange>, AllocError>
    ensures { IfOk result (λ logged. logged ≡ change ∷ []) }
{
    let mut logged = List::new(alloc);
    logged.push(change)?;
    Ok(logged)
}

// A kind as the catalog has it.
fn catalog_kind(kind: &Kind) -> DbKind
    ensures { result ≡ kind_in_catalog kind.now }
{
    match kind {
        Kind::Plain => DbKind::Plain,
        Kind::Dup => DbKind::Dup,
    }
}

// An index as the catalog has it, by the number of its primary.
fn catalog_index(primary: u32, extract: &Extract) -> DbKind
    ensures { result ≡ index_in_catalog primary extract.now }
{
    match extract {
        Extract::ByteSlice { offset, length } => DbKind::SliceIndex {
            primary,
            offset: *offset,
            len: *length,
        },
        Extract::Field { number, separator } => DbKind::FieldIndex {
            primary,
            number: *number,
            separator: *separator,
        },
    }
}

fn log_index(
    alloc: Global,
    db: &Word,
    number: u32,
    extract: &Extract,
    primary: Option<DbRecord>,
) -> Result<List<CatalogChange>, AllocError>
    ensures { IfOk result (λ logged. logged ≡ indexed db.now number extract.now primary) }
{
    let Some(primary) = primary else {
        return Ok(List::new(alloc));
    };
    let kind = catalog_index(primary.number, extract);
    let row = DbRecord { number, kind };
    let db = copy_of(db)?;
    one_record(alloc, CatalogChange::Put { db, row })
}

fn log_rename(
    alloc: Global,
    db: &Word,
    to: &Word,
    row: Option<DbRecord>,
) -> Result<List<CatalogChange>, AllocError>
    ensures { IfOk result (λ logged. logged ≡ moved db.now to.now row) }
{
    let Some(row) = row else {
        return Ok(List::new(alloc));
    };
    let mut logged = one_record(alloc, CatalogChange::Delete { db: copy_of(db)? })?;
    let db = copy_of(to)?;
    logged.push(CatalogChange::Put { db, row })?;
    Ok(logged)
}

fn log_truncation(
    alloc: Global,
    db: &Word,
    number: u32,
    row: Option<DbRecord>,
) -> Result<List<CatalogChange>, AllocError>
    ensures { IfOk result (λ logged. logged ≡ renewed db.now number row) }
{
    let Some(old) = row else {
        return Ok(List::new(alloc));
    };
    let mut row = old;
    row.number = number;
    let db = copy_of(db)?;
    one_record(alloc, CatalogChange::Put { db, row })
}

/// The changes of the catalog's records that log a change, in order; none where it changes records of
/// another database. A database that is made or emptied gets the number, which is to be the next one;
/// a renamed one keeps its own, by which its indexes' records name it. A rename that was planned on
/// what the view sees logs two changes, and any other planned change of the catalog logs one. The one
/// error is out of memory.
pub fn catalog_changes<V: CatalogView>(
    alloc: Global,
    view: &V,
    number: u32,
    change: &Change,
) -> Result<List<CatalogChange>, AllocError>
    ensures exact { IfOk result (λ logged. logged ≡ logged_as (V.record_of view.now) number change.now) }
    ensures planned { IfOk result (λ logged. (call : Planned) (rest : Items Changes) → (outcome_of call (V.seen view.now)).changes ≡ change.now ∷ rest → IsCatalogLog (V.seen view.now) (V.record_of view.now) number change.now logged) }
{
    changes_of(alloc, view, number, change)
}

fn changes_of<V: CatalogView>(
    alloc: Global,
    view: &V,
    number: u32,
    change: &Change,
) -> Result<List<CatalogChange>, AllocError>
    ensures { IfOk result (λ logged. logged ≡ logged_as (V.record_of view.now) number change.now) }
{
    match change {
        Change::Set { .. } | Change::Unset { .. } => Ok(List::new(alloc)),
        Change::Make { db, kind } => {
            let row = DbRecord {
                number,
                kind: catalog_kind(kind),
            };
            let db = copy_of(db)?;
            one_record(alloc, CatalogChange::Put { db, row })
        }
        Change::MakeIndex { db, index } => {
            let primary = view.row(alloc, &index.primary)?;
            log_index(alloc, db, number, &index.extract, primary)
        }
        Change::Remove { db } => one_record(alloc, CatalogChange::Delete { db: copy_of(db)? }),
        Change::Rename { db, to } => log_rename(alloc, db, to, view.row(alloc, db)?),
        Change::Empty { db } => log_truncation(alloc, db, number, view.row(alloc, db)?),
    }
}
