// What is committed in trees, while no transaction has changed anything.
ghost use Rattle.std.specs.Prelude.{◌≡◌, ◌==◌, ◌≤◌, ◌&&◌, ◌++◌, not, nat_le, ℕ, [], length, find, Option, None, Some, IfSome, IfOk, OnOk, option_map};
ghost use Rattle.std.specs.BTreeMap.{keys};
ghost use Rattle.record_map.specs.Cells.{value_at, IsRising};
ghost use Rattle.in_tree.specs.Forest.{cells_at, is_there};
ghost use Rattle.db_tree.specs.Stored.{stored_by, stored_in, stored_under, with_name};
ghost use Rattle.record_tree.specs.Stored.{lent, values_of};
ghost use Rattle.in_tree.specs.Stored.{stored_of};
ghost use Rattle.std.specs.List.{list_any};

use db_tree::DbTree;
use je_lsn::Lsn;
use je_order::Octets;
use node_core::Version;
use record_map::{Cell, EdgeRef, SortKey};
use record_tree::{RecordRef, StoredRecord};
use std::alloc::{AllocError, Global};
use std::collections::BTreeMap;
use std::collections::btree_map::Range;

// What is committed of the cell's name: the LSN of the record, and its data.
fn stored_cell<'a>(cell: &'a Cell) -> Option<(Lsn, &'a [u8])>
    ensures { option_map (λ r. record { at = r.0; value = r.1.now }) result ≡ stored_by cell.entry.now.version cell.entry.now.«data» }
{
    match cell.version {
        Version::There(lsn) => Some((lsn, cell.data.as_slice())),
        Version::Deleted | Version::Unset => None,
    }
}

// How many of the cells have a record, of at most so many cells.
fn count_stored(cells: Range<'_, SortKey, Cell>, limit: usize) -> usize
    requires { length cells ≤ limit }
    ensures { result ≡ length (stored_in cells.entry) }
{
    let mut count = 0;
    for (_name, cell) in cells {
        if stored_cell(cell).is_some() {
            count += 1;
        }
    }
    count
}

// Puts a copy of the cell's record, if it has one, behind the others.
fn push_stored(
    records: &mut Vec<StoredRecord>,
    alloc: Global,
    name: &SortKey,
    cell: &Cell,
) -> Result<(), AllocError>
    ensures { OnOk result (records.new.items ≡ records.old.items ++ with_name name.now (stored_by cell.now.version cell.now.«data»)) }
{
    let Some((at, value)) = stored_cell(cell) else {
        return Ok(());
    };
    records.push(StoredRecord {
        name: name.to_name(alloc)?,
        at,
        value: Octets::from_slice(alloc, value)?,
    })?;
    Ok(())
}

// Copies of the records of the cells.
fn copy_stored(
    alloc: Global,
    cells: Range<'_, SortKey, Cell>,
) -> Result<Vec<StoredRecord>, AllocError>
    ensures { IfOk result (λ records. records.items ≡ stored_in cells.entry) }
{
    let mut records = Vec::new(alloc);
    for (name, cell) in cells {
        push_stored(&mut records, alloc, name, cell)?;
    }
    Ok(records)
}

// Puts the cell's record, if it has one, behind the others.
fn push_lent<'a>(
    records: &mut Vec<RecordRef<'a>>,
    name: &'a SortKey,
    cell: &'a Cell,
) -> Result<(), AllocError>
    ensures { OnOk result (lent records.new.items ≡ lent records.old.items ++ values_of (with_name name.entry.now (stored_by cell.entry.now.version cell.entry.now.«data»))) }
{
    let Some((_at, value)) = stored_cell(cell) else {
        return Ok(());
    };
    records.push(RecordRef { name, value })?;
    Ok(())
}

// The records of the cells, where they lie.
fn lend_stored<'a>(
    alloc: Global,
    cells: Range<'a, SortKey, Cell>,
) -> Result<Vec<RecordRef<'a>>, AllocError>
    ensures { IfOk result (λ records. lent records.items ≡ values_of (stored_in cells.entry)) }
{
    let mut records = Vec::new(alloc);
    for (name, cell) in cells {
        push_lent(&mut records, name, cell)?;
    }
    Ok(records)
}

// Whether the record's dup is not empty, if the cell has one.
fn has_dup(name: &SortKey, cell: &Cell) -> bool
    ensures { result ≡ list_any (λ r. not (length r.0.dup == 0)) (with_name name.now (stored_by cell.now.version cell.now.«data»)) }
{
    stored_cell(cell).is_some() && !name.dup().is_empty()
}

// Whether the record is no duplicate, if the cell has one: its data is not empty, or its dup has more than `limit` bytes.
fn is_not_dup(name: &SortKey, cell: &Cell, limit: usize) -> bool
    ensures { result ≡ list_any (λ r. not ((length r.1.value == 0) && nat_le (length r.0.dup) limit)) (with_name name.now (stored_by cell.now.version cell.now.«data»)) }
{
    match stored_cell(cell) {
        Some((_at, value)) => !(value.is_empty() && name.dup().len() <= limit),
        None => false,
    }
}

// The name of the first record whose dup is not empty.
fn find_dup<'a>(cells: Range<'a, SortKey, Cell>) -> Option<&'a SortKey>
    ensures { option_map (λ name. name.now) result ≡ option_map (λ r. r.0) (find (λ r. not (length r.0.dup == 0)) (stored_in cells.entry)) }
{
    for (name, cell) in cells {
        if has_dup(name, cell) {
            return Some(name);
        }
    }
    None
}

// The name of the first record that is no duplicate.
fn find_not_dup<'a>(cells: Range<'a, SortKey, Cell>, limit: usize) -> Option<&'a SortKey>
    ensures { option_map (λ name. name.now) result ≡ option_map (λ r. r.0) (find (λ r. not ((length r.1.value == 0) && nat_le (length r.0.dup) limit)) (stored_in cells.entry)) }
{
    for (name, cell) in cells {
        if is_not_dup(name, cell, limit) {
            return Some(name);
        }
    }
    None
}

// The cells of a database, if it has any, and at most how many.
fn cells_of<'a>(
    trees: &'a BTreeMap<u32, DbTree>,
    db: u32,
) -> Option<(Range<'a, SortKey, Cell>, usize)>
    ensures cells { IfSome result (λ r. r.0 ≡ cells_at trees.entry.now db) }
    ensures count { IfSome result (λ r. r.1 ≡ length r.0) }
    ensures none { result ≡ None → cells_at trees.entry.now db ≡ [] }
{
    let tree = trees.get(&db)?;
    let cells = tree.cells.iter_from(EdgeRef::First)?;
    Some((cells, tree.cells.len()))
}

// The numbers of the databases with trees.
pub(crate) fn databases(
    trees: &BTreeMap<u32, DbTree>,
    alloc: Global,
) -> Result<Vec<u32>, AllocError>
    ensures { IfOk result (λ numbers. (d : ℕ) → is_there trees.now d ≡ list_any (λ n. n == d) numbers.items) }
{
    let mut numbers = Vec::new(alloc);
    for db in trees.keys() {
        numbers.push(*db)?;
    }
    Ok(numbers)
}

// How many records a database has.
pub(crate) fn count(trees: &BTreeMap<u32, DbTree>, db: u32) -> usize
    ensures { result ≡ length (stored_of trees.now db) }
{
    match cells_of(trees, db) {
        Some((cells, limit)) => count_stored(cells, limit),
        None => 0,
    }
}

// The LSN and the data of the record of a name.
pub(crate) fn get<'a>(
    trees: &'a BTreeMap<u32, DbTree>,
    db: u32,
    name: &SortKey,
) -> Option<(Lsn, &'a [u8])>
    ensures { option_map (λ r. record { at = r.0; value = r.1.now }) result ≡ stored_under (value_at name.now (cells_at trees.entry.now db)) }
{
    match trees.get(&db) {
        Some(tree) => match tree.cells.get(name) {
            Some(cell) => stored_cell(cell),
            None => None,
        },
        None => None,
    }
}

// Copies of the records of a database.
pub(crate) fn records(
    trees: &BTreeMap<u32, DbTree>,
    alloc: Global,
    db: u32,
) -> Result<Vec<StoredRecord>, AllocError>
    ensures { IfOk result (λ records. records.items ≡ stored_of trees.now db) }
{
    match cells_of(trees, db) {
        Some((cells, _limit)) => copy_stored(alloc, cells),
        None => Ok(Vec::new(alloc)),
    }
}

// The records of a database, where they lie.
pub(crate) fn lend_records<'a>(
    trees: &'a BTreeMap<u32, DbTree>,
    alloc: Global,
    db: u32,
) -> Result<Vec<RecordRef<'a>>, AllocError>
    ensures { IfOk result (λ records. lent records.items ≡ values_of (stored_of trees.entry.now db)) }
{
    match cells_of(trees, db) {
        Some((cells, _limit)) => lend_stored(alloc, cells),
        None => Ok(Vec::new(alloc)),
    }
}

// The name of the first record of a database whose dup is not empty.
pub(crate) fn first_with_dup<'a>(trees: &'a BTreeMap<u32, DbTree>, db: u32) -> Option<&'a SortKey>
    ensures { option_map (λ name. name.now) result ≡ option_map (λ r. r.0) (find (λ r. not (length r.0.dup == 0)) (stored_of trees.entry.now db)) }
{
    match cells_of(trees, db) {
        Some((cells, _limit)) => find_dup(cells),
        None => None,
    }
}

// The name of the first record of a database that is no duplicate.
pub(crate) fn first_not_dup<'a>(
    trees: &'a BTreeMap<u32, DbTree>,
    db: u32,
    limit: usize,
) -> Option<&'a SortKey>
    ensures { option_map (λ name. name.now) result ≡ option_map (λ r. r.0) (find (λ r. not ((length r.1.value == 0) && nat_le (length r.0.dup) limit)) (stored_of trees.entry.now db)) }
{
    match cells_of(trees, db) {
        Some((cells, _limit)) => find_not_dup(cells, limit),
        None => None,
    }
}
