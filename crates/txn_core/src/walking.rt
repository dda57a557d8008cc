// Walks over the committed records of one database.
ghost use Rattle.std.specs.Prelude.{◌≡◌, ◌-◌, true, ℕ, List as Items, IfOk, map, length};
ghost use Rattle.std.specs.List.{list_all};
ghost use Rattle.log_replay.specs.Rows.{catalog_index, is_catalog_row, is_indexed, is_made_of};
ghost use Rattle.txn_core.specs.Known.{committed};

use crate::reading::next;
use db_catalog::CATALOG;
use je_order::{List, Word};
use log_replay::index_of;
use record_map::{EdgeRef, SortKey};
use record_tree::Records;
use std::alloc::{AllocError, Global};

// The name of the database that a record of a right catalog names.
fn word_in(alloc: Global, name: &SortKey) -> Result<Word, AllocError>
    requires { (held : Items ℕ) × (is_catalog_row (name.now, held) ≡ true) }
    ensures { IfOk result (λ word. word ≡ name.now.key) }
{
    Word::from_slice(alloc, name.key())
}

/// The names of the databases that the catalog has, where it is right, in order.
pub fn names<T: Records>(trees: &T, alloc: Global) -> Result<List<Word>, AllocError>
    requires { list_all is_catalog_row (committed (T.cells trees.now) 0) ≡ true }
    ensures { IfOk result (λ names. names ≡ map (λ r. r.0.key) (committed (T.cells trees.now) 0)) }
{
    let mut names = Vec::new(alloc);
    let mut from = EdgeRef::First;
    'catalog: while let Some((name, _data)) = next(trees, CATALOG, from) {
        names.push(word_in(alloc, name)?)?;
        from = EdgeRef::Behind(name);
    }
    Ok(List::from_vec(names))
}

// Whether a record of the catalog is that of an index of the database of that number.
fn is_made_of(number: u32, bytes: &[u8]) -> bool
    ensures { result ≡ is_made_of number (catalog_index bytes.now) }
{
    match index_of(bytes) {
        Some((primary, _extract)) => primary == number,
        None => false,
    }
}

/// Whether the catalog has an index of the database of that number. It goes over the catalog.
pub fn has_index<T: Records>(trees: &T, number: u32) -> bool
    ensures { result ≡ is_indexed (committed (T.cells trees.now) 0) number }
{
    let mut from = EdgeRef::First;
    'catalog: while let Some((name, held)) = next(trees, CATALOG, from) {
        if is_made_of(number, held.as_slice()) {
            return true;
        }
        from = EdgeRef::Behind(name);
    }
    false
}

/// So many records without those of the database of that number; none, where it has more. It goes over them once.
pub fn without_db<T: Records>(trees: &T, db: u32, records: u64) -> u64
    ensures { result ≡ records - length (committed (T.cells trees.now) db) }
{
    records.saturating_sub(trees.count_records(db) as u64)
}
