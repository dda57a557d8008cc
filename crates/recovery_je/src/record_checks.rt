// Noting each record that breaks a rule of environments.
ghost use Rattle.std.specs.Prelude.{◌≡◌, ◌≤◌, ◌++◌, ◌&&◌, ℕ, ◌∷◌, [], IfOk, OnOk, IsTrue, length, map, if◌then◌else◌};
ghost use Rattle.std.specs.List.{AllByRecursion, insert};
ghost use Rattle.je_order.specs.Words.{is_word};
ghost use Rattle.record_map.specs.Cells.{IsRising};
ghost use Rattle.record_tree.specs.Stored.{lent, values_of};
ghost use Rattle.log_replay.specs.Rows.{catalog_index, catalog_number, has_primary, is_right_row};
ghost use Rattle.log_replay.specs.Wrong.{is_right_behind};
ghost use Rattle.check_laws.specs.Parts.{kept_in_catalog, put_by_number as put_in_order, wrongs_in, wrongs_in_catalog};
ghost use Rattle.check_laws.specs.Rest.{catalog_left};
ghost use Rattle.recovery_je.specs.Checking.{as_found, lsn_of as lsn_of_name, values_in};
ghost use Rattle.recovery_je.specs.Indexing.{lent_row};
ghost use Rattle.recovery_je.specs.RecordChecks.{wrong_among_in_order, wrong_at, wrongs_of, wrongs_of_all, wrongs_stored};

use crate::checking::{is_right_in, is_wrong, lsn_in_catalog, lsn_of, numbered_in};
use crate::numbered::Numbered;
use check_laws::Finding;
use db_catalog::CATALOG;
use je_order::{List, copy_of};
use log_replay::{Corruption, number_of};
use record_tree::{Loads, RecordRef, StoredRecord};
use std::alloc::{AllocError, Global};
use store_model::{DUP_LIMIT, Kind};

// ---- the catalog

// A copy of a record.
fn copy_record(row: &StoredRecord) -> Result<StoredRecord, AllocError>
    ensures { IfOk result (λ copy. copy ≡ row.now) }
{
    Ok(StoredRecord {
        name: copy_of(&row.name)?,
        at: row.at,
        value: copy_of(&row.value)?,
    })
}

// Whether one of the catalog's records is right behind records of these numbers.
fn is_kept(records: &[StoredRecord], row: &StoredRecord, before: &[u32]) -> bool
    ensures { result ≡ (is_right_behind before.now (row.now.0, row.now.1.value) && has_primary (values_of records.now) (catalog_index row.now.1.value)) }
{
    is_right_in(records, &row.name, row.value.as_slice(), before)
}

// Keeps a record of the catalog, and its number.
fn keep_record(
    left: &mut Vec<StoredRecord>,
    before: &mut Vec<u32>,
    row: &StoredRecord,
) -> Result<(), AllocError>
    ensures left { OnOk result (left.new.items ≡ left.old.items ++ row.now ∷ []) }
    ensures before { OnOk result (before.new.items ≡ before.old.items ++ catalog_number row.now.1.value ∷ []) }
{
    left.push(copy_record(row)?)?;
    before.push(number_of(row.value.as_slice()))?;
    Ok(())
}

// Notes a record of the catalog.
fn note_in_catalog<T: Loads>(
    alloc: Global,
    trees: &T,
    row: &StoredRecord,
    findings: &mut List<Finding>,
) -> Result<(), AllocError>
    ensures { OnOk result (findings.new ≡ findings.old ++ wrong_at (lsn_of_name (T.stored trees.now)) 0 row.now.0 ∷ []) }
{
    let at = lsn_in_catalog(alloc, trees, copy_of(&row.name)?)?;
    findings.push(Finding::Wrong(Corruption::Tree(at)))?;
    Ok(())
}

// Notes each of the catalog's records that is wrong, and gives copies of those that are left.
fn check_catalog<T: Loads>(
    alloc: Global,
    trees: &T,
    records: &[StoredRecord],
    findings: &mut List<Finding>,
) -> Result<Vec<StoredRecord>, AllocError>
    ensures findings { OnOk result (findings.new ≡ findings.old ++ map (wrong_at (lsn_of_name (T.stored trees.now)) 0) (wrongs_in_catalog (values_of records.now) [] (values_of records.now))) }
    ensures left { IfOk result (λ left. values_of left.items ≡ kept_in_catalog (values_of records.now) [] (values_of records.now)) }
    ensures words { IfOk result (λ left. AllByRecursion (λ r. IsTrue (is_word r.0.key)) left.items) }
{
    let mut before = Vec::new(alloc);
    let mut left = Vec::new(alloc);
    for record in records {
        if !is_kept(records, record, &before) {
            note_in_catalog(alloc, trees, record, findings)?;
            continue;
        }
        keep_record(&mut left, &mut before, record)?;
    }
    Ok(left)
}

// ---- the databases

// How many databases stand before one of this number: those up to the first with no lower one.
fn count_before(databases: &[Numbered], database: Numbered) -> usize
    ensures bound { result ≤ length databases.now }
    ensures place { map as_found (insert databases.now result database) ≡ put_in_order (as_found database) (map as_found databases.now) }
{
    let mut before = 0;
    for other in databases {
        if database.number <= other.number {
            return before;
        }
        before += 1;
    }
    before
}

// Puts a database among others in order of their numbers.
fn put_by_number(databases: &mut Vec<Numbered>, database: Numbered) -> Result<(), AllocError>
    ensures { OnOk result (map as_found databases.new.items ≡ put_in_order (as_found database) (map as_found databases.old.items)) }
{
    let before = count_before(databases, database);
    databases.insert(before, database)?;
    Ok(())
}

// Those of these databases that have a wrong record, in order of their numbers.
fn wrong_in_order<T: Loads>(
    alloc: Global,
    trees: &T,
    databases: Vec<Numbered>,
) -> Result<Vec<Numbered>, AllocError>
    ensures { IfOk result (λ wrong. map as_found wrong.items ≡ wrong_among_in_order (values_in (T.stored trees.now)) (map as_found databases.items)) }
{
    let mut left = databases;
    let mut wrong = Vec::new(alloc);
    while let Some(database) = left.pop() {
        if !is_wrong(trees, database) {
            continue;
        }
        put_by_number(&mut wrong, database)?;
    }
    Ok(wrong)
}

/// Whether a record is right in a database of a kind.
pub(crate) fn is_right_record(kind: Kind, row: &RecordRef<'_>) -> bool
    ensures { result ≡ is_right_row kind (lent_row row.now) }
{
    match kind {
        Kind::Plain => row.name.dup().is_empty(),
        Kind::Dup => row.value.is_empty() && row.name.dup().len() <= DUP_LIMIT,
    }
}

// Notes a record of a database, if it is wrong in one of its kind.
fn note_record<T: Loads>(
    trees: &T,
    database: Numbered,
    row: &RecordRef<'_>,
    findings: &mut List<Finding>,
) -> Result<(), AllocError>
    ensures { OnOk result (findings.new ≡ findings.old ++ (if is_right_row database.kind (lent_row row.now) then [] else wrong_at (lsn_of_name (T.stored trees.now)) database.number row.now.name.now ∷ [])) }
{
    if is_right_record(database.kind, row) {
        return Ok(());
    }
    let at = lsn_of(trees, database.number, row.name);
    findings.push(Finding::Wrong(Corruption::Tree(at)))?;
    Ok(())
}

// Notes each of these records of a database that is wrong in one of its kind.
fn note_each<T: Loads>(
    trees: &T,
    database: Numbered,
    records: &[RecordRef<'_>],
    findings: &mut List<Finding>,
) -> Result<(), AllocError>
    ensures { OnOk result (findings.new ≡ findings.old ++ map (wrong_at (lsn_of_name (T.stored trees.now)) database.number) (wrongs_in database.kind (lent records.now))) }
{
    for record in records {
        note_record(trees, database, record, findings)?;
    }
    Ok(())
}

// Notes each record of a database that is wrong in one of its kind.
fn note_database<T: Loads>(
    alloc: Global,
    trees: &T,
    database: Numbered,
    findings: &mut List<Finding>,
) -> Result<(), AllocError>
    ensures { OnOk result (findings.new ≡ findings.old ++ wrongs_of (lsn_of_name (T.stored trees.now)) (values_in (T.stored trees.now)) (as_found database)) }
{
    let records = trees.lend_records(alloc, database.number)?;
    note_each(trees, database, &records, findings)
}

// Notes each wrong record of these databases, in order.
fn note_databases<T: Loads>(
    alloc: Global,
    trees: &T,
    databases: &[Numbered],
    findings: &mut List<Finding>,
) -> Result<(), AllocError>
    ensures { OnOk result (findings.new ≡ findings.old ++ wrongs_of_all (lsn_of_name (T.stored trees.now)) (values_in (T.stored trees.now)) (map as_found databases.now)) }
{
    for database in databases {
        note_database(alloc, trees, *database, findings)?;
    }
    Ok(())
}

/// Notes each record that breaks a rule of environments: the catalog's in name order, and then those of the databases that it still names,
/// by number and name. It gives copies of the catalog's records that are left. The time is that of one look at each record.
pub(crate) fn check_records<T: Loads>(
    alloc: Global,
    trees: &T,
    findings: &mut List<Finding>,
) -> Result<Vec<StoredRecord>, AllocError>
    ensures findings { OnOk result (findings.new ≡ findings.old ++ wrongs_stored (T.stored trees.now)) }
    ensures left { IfOk result (λ left. values_of left.items ≡ catalog_left (values_in (T.stored trees.now))) }
    ensures words { IfOk result (λ left. AllByRecursion (λ r. IsTrue (is_word r.0.key)) left.items) }
    ensures rising { (d : ℕ) → IsRising (T.stored trees.now d) }
{
    let records = trees.records(alloc, CATALOG)?;
    let left = check_catalog(alloc, trees, &records, findings)?;
    drop(records);
    let databases = numbered_in(alloc, &left)?;
    let wrong = wrong_in_order(alloc, trees, databases)?;
    note_databases(alloc, trees, &wrong, findings)?;
    Ok(left)
}
