// Counting the records that are left, and noting each index that has not the pairs of what is left of its primary.
ghost use Rattle.std.specs.Prelude.{◌≡◌, ◌++◌, ◌∷◌, [], ℕ, Bool, IfOk, OnOk, IsTrue, filter, length, map, option_map};
ghost use Rattle.std.specs.List.{AllByRecursion};
ghost use Rattle.je_order.specs.Words.{is_word};
ghost use Rattle.record_map.specs.Cells.{IsRising};
ghost use Rattle.record_tree.specs.Stored.{lent, values_of};
ghost use Rattle.store_model.specs.declared.kind.Kind.TheVariants.{Plain, Dup};
ghost use Rattle.store_model.specs.Indexes.{index_pairs};
ghost use Rattle.store_model.specs.Store.{HasRisingNames};
ghost use Rattle.log_replay.specs.Rows.{catalog_index, catalog_kind, catalog_number, is_right_row, pair_of, row_numbered};
ghost use Rattle.log_replay.specs.Indexed.{are_same_pairs};
ghost use Rattle.check_laws.specs.Rest.{catalog_left, rows_left};
ghost use Rattle.check_laws.specs.Check.{counts_left, index_findings};
ghost use Rattle.recovery_je.specs.Checking.{values_in};
ghost use Rattle.recovery_je.specs.RestChecks.{count_of_rest, index_noted, indexes_in, is_paired_in, rest_in, paired_in, primary_in};

use crate::checking::{is_plain_at, is_wrong};
use crate::indexes::{are_pairs, pairs_of};
use crate::numbered::Numbered;
use crate::record_checks::is_right_record;
use check_laws::{DatabaseCount, Finding};
use je_order::{List, Word};
use log_replay::{index_of, kind_of, number_of};
use record_tree::{Loads, RecordRef, StoredRecord};
use secondary::sort_pairs;
use std::alloc::{AllocError, Global};
use store_model::{Extract, Kind};

// ---- what is left of a database

// The kind of the database of a number, if one of these records of the catalog names it.
fn kind_at(left: &[StoredRecord], number: u32) -> Option<Kind>
    ensures { result ≡ option_map (λ r. catalog_kind r.1) (row_numbered number (values_of left.now)) }
{
    for row in left {
        if number_of(row.value.as_slice()) == number {
            return Some(kind_of(row.value.as_slice()));
        }
    }
    None
}

// Those of these records that are right in a database of a kind.
fn only_right<'a>(
    alloc: Global,
    records: &[RecordRef<'a>],
    kind: Kind,
) -> Result<Vec<RecordRef<'a>>, AllocError>
    ensures { IfOk result (λ right. lent right.items ≡ filter (is_right_row kind) (lent records.now)) }
{
    let mut right = Vec::new(alloc);
    for row in records {
        if !is_right_record(kind, row) {
            continue;
        }
        right.push(*row)?;
    }
    Ok(right)
}

// The right records of a database of a kind, where they lie.
fn right_records<T: Loads>(
    alloc: Global,
    trees: &T,
    number: u32,
    kind: Kind,
) -> Result<Vec<RecordRef<'_>>, AllocError>
    ensures right { IfOk result (λ records. lent records.items ≡ filter (is_right_row kind) (values_of (T.stored trees.now number))) }
    ensures rising { IfOk result (λ records. IsRising (T.stored trees.now number)) }
{
    let records = trees.lend_records(alloc, number)?;
    if !is_wrong(trees, Numbered { number, kind }) {
        return Ok(records);
    }
    only_right(alloc, &records, kind)
}

// The records of the database of a number that are left: the right ones, if one of these records of the catalog names it.
fn records_left<'a, T: Loads>(
    alloc: Global,
    trees: &'a T,
    left: &[StoredRecord],
    number: u32,
) -> Result<Vec<RecordRef<'a>>, AllocError>
    ensures { IfOk result (λ records. lent records.items ≡ rest_in (values_of left.now) (values_in (T.stored trees.now)) number) }
{
    match kind_at(left, number) {
        Some(kind) => right_records(alloc, trees, number, kind),
        None => Ok(Vec::new(alloc)),
    }
}

// The same of an index's primary: none where it is no plain database.
fn primary_left<'a, T: Loads>(
    alloc: Global,
    trees: &'a T,
    left: &[StoredRecord],
    number: u32,
) -> Result<Vec<RecordRef<'a>>, AllocError>
    ensures left { IfOk result (λ records. lent records.items ≡ primary_in (values_of left.now) (values_in (T.stored trees.now)) number) }
    ensures rising { IfOk result (λ records. HasRisingNames Plain (map (pair_of Plain) (lent records.items))) }
{
    if !is_plain_at(left, number) {
        return Ok(Vec::new(alloc));
    }
    right_records(alloc, trees, number, Kind::Plain)
}

// ---- one database

// Whether an index's records are the pairs of its primary's: one look at each, and the time of sorting the pairs.
fn are_paired(
    alloc: Global,
    records: &[RecordRef<'_>],
    primary: &[RecordRef<'_>],
    extract: &Extract,
) -> Result<bool, AllocError>
    requires { HasRisingNames Plain (map (pair_of Plain) (lent primary.now)) }
    ensures { IfOk result (λ same. same ≡ are_same_pairs (map (pair_of Dup) (lent records.now)) (index_pairs extract.now (map (pair_of Plain) (lent primary.now)))) }
{
    let mut pairs = pairs_of(alloc, primary, extract)?;
    sort_pairs(&mut pairs);
    Ok(are_pairs(records, &pairs))
}

// Whether the records that are left of a database are, if it is an index, the pairs of what is left of its primary.
fn is_paired<T: Loads>(
    alloc: Global,
    trees: &T,
    left: &[StoredRecord],
    row: &StoredRecord,
    records: &[RecordRef<'_>],
) -> Result<bool, AllocError>
    ensures { IfOk result (λ paired. paired ≡ paired_in (values_of left.now) (values_in (T.stored trees.now)) (lent records.now) (catalog_index row.now.1.value)) }
{
    match index_of(row.value.as_slice()) {
        Some((primary, extract)) => {
            let primary = primary_left(alloc, trees, left, primary)?;
            are_paired(alloc, records, &primary, &extract)
        }
        None => Ok(true),
    }
}

// Notes an index that has not its pairs.
fn note_index(
    alloc: Global,
    row: &StoredRecord,
    paired: bool,
    findings: &mut List<Finding>,
) -> Result<(), AllocError>
    requires { IsTrue (is_word row.now.0.key) }
    ensures { OnOk result (findings.new ≡ findings.old ++ index_noted paired (row.now.0, row.now.1.value)) }
{
    if paired {
        return Ok(());
    }
    let name = Word::from_slice(alloc, row.name.key.as_slice())?;
    findings.push(Finding::Index(name))?;
    Ok(())
}

// Keeps the count of a database's records.
fn keep_count(
    alloc: Global,
    row: &StoredRecord,
    records: usize,
    counts: &mut List<DatabaseCount>,
) -> Result<(), AllocError>
    requires { IsTrue (is_word row.now.0.key) }
    ensures { OnOk result (counts.new ≡ counts.old ++ record { name = row.now.0.key; records = records } ∷ []) }
{
    let name = Word::from_slice(alloc, row.name.key.as_slice())?;
    counts.push(DatabaseCount {
        name,
        records: records as u64,
    })?;
    Ok(())
}

// Counts what is left of the database that a record of the catalog names, and notes it if it is an index without its pairs.
fn check_database<T: Loads>(
    alloc: Global,
    trees: &T,
    left: &[StoredRecord],
    row: &StoredRecord,
    counts: &mut List<DatabaseCount>,
    findings: &mut List<Finding>,
) -> Result<(), AllocError>
    requires { IsTrue (is_word row.now.0.key) }
    ensures counts { OnOk result (counts.new ≡ counts.old ++ count_of_rest (values_of left.now) (values_in (T.stored trees.now)) (row.now.0, row.now.1.value) ∷ []) }
    ensures findings { OnOk result (findings.new ≡ findings.old ++ index_noted (is_paired_in (values_of left.now) (values_in (T.stored trees.now)) (row.now.0, row.now.1.value)) (row.now.0, row.now.1.value)) }
{
    let number = number_of(row.value.as_slice());
    let records = records_left(alloc, trees, left, number)?;
    let paired = is_paired(alloc, trees, left, row, &records)?;
    note_index(alloc, row, paired, findings)?;
    keep_count(alloc, row, records.len(), counts)
}

// ---- all of them

// Counts what is left of the databases that these of the catalog's records name, and notes the indexes without their pairs.
fn check_each<T: Loads>(
    alloc: Global,
    trees: &T,
    left: &[StoredRecord],
    findings: &mut List<Finding>,
) -> Result<List<DatabaseCount>, AllocError>
    requires { AllByRecursion (λ r. IsTrue (is_word r.0.key)) left.now }
    ensures counts { IfOk result (λ counts. counts ≡ map (count_of_rest (values_of left.now) (values_in (T.stored trees.now))) (values_of left.now)) }
    ensures findings { OnOk result (findings.new ≡ findings.old ++ indexes_in (values_of left.now) (values_in (T.stored trees.now)) (values_of left.now)) }
{
    let mut counts = List::new(alloc);
    for row in left {
        check_database(alloc, trees, left, row, &mut counts, findings)?;
    }
    Ok(counts)
}

/// Counts the records of the databases that are left, by name, and notes each index that has not the pairs of what is left of its
/// primary. The time is that of two looks at each record, and of sorting the pairs of each index.
pub(crate) fn check_rest<T: Loads>(
    alloc: Global,
    trees: &T,
    left: &[StoredRecord],
    findings: &mut List<Finding>,
) -> Result<List<DatabaseCount>, AllocError>
    requires left { values_of left.now ≡ catalog_left (values_in (T.stored trees.now)) }
    requires words { AllByRecursion (λ r. IsTrue (is_word r.0.key)) left.now }
    ensures counts { IfOk result (λ counts. counts ≡ counts_left (rows_left (values_in (T.stored trees.now)))) }
    ensures findings { OnOk result (findings.new ≡ findings.old ++ index_findings (rows_left (values_in (T.stored trees.now)))) }
{
    check_each(alloc, trees, left, findings)
}
