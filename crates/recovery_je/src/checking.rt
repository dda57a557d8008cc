// The first record that breaks a rule of environments.
ghost use Rattle.std.specs.Prelude.{◌≡◌, ◌==◌, ◌&&◌, ℕ, List as Items, [], None, Some, IfOk, map, filter, not, option_map, if◌then◌else◌};
ghost use Rattle.log_replay.specs.Rows.{catalog_number, catalog_index, is_plain_row, row_numbered, has_primary as has_primary_in, are_right};
ghost use Rattle.log_replay.specs.Wrong.{is_right_behind, wrong_in_catalog as wrong_in_rows, wrong_in, numbered_by, lesser as lesser_of};
ghost use Rattle.record_map.specs.Cells.{IsRising};
ghost use Rattle.recovery_je.specs.Checking.{values_of, numbered_of, as_found, wrong_among, wrong_lsn_in, wrong_lsn_under, lsn_of as lsn_of_name};
ghost use Rattle.recovery_je.specs.declared.numbered.Numbered.{Numbered as Database};

use crate::numbered::Numbered;
use db_catalog::CATALOG;
use je_lsn::Lsn;
use je_order::{Name, Word, copy_of};
use log_replay::{index_of, is_plain, kind_of, number_of};
use record_map::SortKey;
use record_tree::{Loads, StoredRecord};
use std::alloc::{AllocError, Global};
use store_model::{DUP_LIMIT, Extract, Kind, MOST_DATABASES};

// Whether a catalog record of this name and number is right behind records of other numbers.
fn is_right(name: &Name, number: u32, before: &[u32]) -> bool
    ensures { (data_ : Items ℕ) → catalog_number data_ ≡ number → result ≡ is_right_behind before.now (name.now, data_) }
{
    Word::is_word(name.key.as_slice())
        && name.dup.is_empty()
        && number != 0
        && !before.contains(&number)
        && before.len() < MOST_DATABASES as usize
}

/// Whether the catalog's record of a number is one of a plain database.
pub(crate) fn is_plain_at(records: &[StoredRecord], number: u32) -> bool
    ensures { result ≡ is_plain_row (row_numbered number (values_of records.now)) }
{
    for record in records {
        if number_of(record.value.as_slice()) == number {
            return is_plain(record.value.as_slice());
        }
    }
    false
}

// Whether the primary of what a record makes an index of is among the catalog's records, a plain database.
fn has_primary(records: &[StoredRecord], made: Option<(u32, Extract)>) -> bool
    ensures { result ≡ has_primary_in (values_of records.now) made }
{
    match made {
        Some((primary, _)) => is_plain_at(records, primary),
        None => true,
    }
}

/// Whether a catalog record of this name and data is right behind records of other numbers.
pub(crate) fn is_right_in(
    records: &[StoredRecord],
    name: &Name,
    value: &[u8],
    before: &[u32],
) -> bool
    ensures { result ≡ (is_right_behind before.now (name.now, value.now) && has_primary_in (values_of records.now) (catalog_index value.now)) }
{
    is_right(name, number_of(value), before) && has_primary(records, index_of(value))
}

// The name of the first of the catalog's records that is wrong.
fn wrong_in_catalog(alloc: Global, records: &[StoredRecord]) -> Result<Option<Name>, AllocError>
    ensures { IfOk result (λ wrong. wrong ≡ wrong_in_rows (values_of records.now) [] (values_of records.now)) }
{
    let mut before = Vec::new(alloc);
    for record in records {
        if !is_right_in(records, &record.name, record.value.as_slice(), &before) {
            return Ok(Some(copy_of(&record.name)?));
        }
        before.push(number_of(record.value.as_slice()))?;
    }
    Ok(None)
}

// The numbers in the catalog's records, in order.
fn numbers_in(alloc: Global, records: &[StoredRecord]) -> Result<Vec<u32>, AllocError>
    ensures { IfOk result (λ numbers. numbers.items ≡ map (λ r. catalog_number r.1) (values_of records.now)) }
{
    let mut numbers = Vec::new(alloc);
    for record in records {
        numbers.push(number_of(record.value.as_slice()))?;
    }
    Ok(numbers)
}

/// The numbers and the kinds in the catalog's records, in order.
pub(crate) fn numbered_in(
    alloc: Global,
    records: &[StoredRecord],
) -> Result<Vec<Numbered>, AllocError>
    ensures { IfOk result (λ databases. databases.items ≡ map numbered_of (values_of records.now)) }
{
    let mut databases = Vec::new(alloc);
    for record in records {
        databases.push(Numbered {
            number: number_of(record.value.as_slice()),
            kind: kind_of(record.value.as_slice()),
        })?;
    }
    Ok(databases)
}

// The first of a database and another one, if there is one, with the lesser number.
fn lesser(found: Option<Numbered>, other: Numbered) -> Numbered
    ensures none { found ≡ None → result ≡ other }
    ensures some { (d : Database) → found ≡ Some d → Some (as_found result) ≡ lesser_of (as_found d) (Some (as_found other)) }
{
    match found {
        Some(found) => {
            if found.number <= other.number {
                found
            } else {
                other
            }
        }
        None => other,
    }
}

// The name of the first record of a database that is wrong in one of its kind.
fn first_wrong<T: Loads>(trees: &T, database: Numbered) -> Option<&SortKey>
    ensures { option_map (λ name. name.now) result ≡ wrong_in database.kind (values_of (T.stored trees.now database.number)) }
{
    match database.kind {
        Kind::Plain => trees.first_with_dup(database.number),
        Kind::Dup => trees.first_not_dup(database.number, DUP_LIMIT),
    }
}

/// Whether a database has a record that is wrong in one of its kind.
pub(crate) fn is_wrong<T: Loads>(trees: &T, database: Numbered) -> bool
    ensures { result ≡ not (are_right database.kind (values_of (T.stored trees.now database.number))) }
{
    first_wrong(trees, database).is_some()
}

// The least of these databases that has a record that is wrong in one of its kind.
fn least_wrong<T: Loads>(trees: &T, databases: &[Numbered]) -> Option<Numbered>
    ensures { option_map as_found result ≡ wrong_among (T.stored trees.now) (map as_found databases.now) }
{
    let mut found = None;
    for database in databases {
        if is_wrong(trees, *database) {
            found = Some(lesser(found, *database));
        }
    }
    found
}

/// The LSN of the record of that name, 0 where there is none.
pub(crate) fn lsn_of<T: Loads>(trees: &T, db: u32, name: &SortKey) -> Lsn
    ensures { result ≡ lsn_of_name (T.stored trees.now) db name.now }
{
    match trees.get(db, name) {
        Some((at, _)) => at,
        None => Lsn::from_u64(0),
    }
}

/// The LSN of the catalog's record of that name, 0 where there is none.
pub(crate) fn lsn_in_catalog<T: Loads>(
    alloc: Global,
    trees: &T,
    name: Name,
) -> Result<Lsn, AllocError>
    ensures { IfOk result (λ at. at ≡ lsn_of_name (T.stored trees.now) 0 name) }
{
    let name = SortKey::new(alloc, name)?;
    let at = lsn_of(trees, CATALOG, &name);
    drop(name);
    Ok(at)
}

// The LSN of the first record of a database that is wrong in one of its kind.
fn wrong_in_db<T: Loads>(trees: &T, database: Numbered) -> Option<Lsn>
    ensures { result ≡ option_map (λ x. lsn_of_name (T.stored trees.now) database.number x) (wrong_in database.kind (values_of (T.stored trees.now database.number))) }
{
    match first_wrong(trees, database) {
        Some(name) => Some(lsn_of(trees, database.number, name)),
        None => None,
    }
}

// The LSN of the first wrong record of these databases.
fn wrong_under<T: Loads>(trees: &T, databases: &[Numbered]) -> Option<Lsn>
    ensures { result ≡ wrong_lsn_under (T.stored trees.now) (map as_found databases.now) }
{
    match least_wrong(trees, databases) {
        Some(database) => wrong_in_db(trees, database),
        None => None,
    }
}

// The LSN of the first wrong record of the databases that the catalog's records name.
fn wrong_in_databases<T: Loads>(
    alloc: Global,
    trees: &T,
    records: &[StoredRecord],
) -> Result<Option<Lsn>, AllocError>
    ensures { IfOk result (λ wrong. wrong ≡ wrong_lsn_under (T.stored trees.now) (map numbered_by (values_of records.now))) }
{
    let databases = numbered_in(alloc, records)?;
    Ok(wrong_under(trees, &databases))
}

/// The LSN of the first record that breaks a rule of environments, if one does.
pub(crate) fn wrong_lsn<T: Loads>(alloc: Global, trees: &T) -> Result<Option<Lsn>, AllocError>
    ensures wrong { IfOk result (λ wrong. wrong ≡ wrong_lsn_in (T.stored trees.now)) }
    ensures rising { (d : ℕ) → IsRising (T.stored trees.now d) }
{
    let records = trees.records(alloc, CATALOG)?;
    match wrong_in_catalog(alloc, &records)? {
        Some(name) => Ok(Some(lsn_in_catalog(alloc, trees, name)?)),
        None => wrong_in_databases(alloc, trees, &records),
    }
}

/// The numbers of the databases that the catalog names, in order of their names.
pub(crate) fn catalog_numbers<T: Loads>(alloc: Global, trees: &T) -> Result<Vec<u32>, AllocError>
    ensures { IfOk result (λ numbers. numbers.items ≡ map (λ r. catalog_number r.1) (values_of (T.stored trees.now 0))) }
{
    let records = trees.records(alloc, CATALOG)?;
    numbers_in(alloc, &records)
}
