// The first index whose pairs are not those of its primary's records.
ghost use Rattle.std.specs.Prelude.{◌≡◌, ℕ, Option, None, Some, find, map, not, option_map, true, IfOk, IfSome, IsTrue};
ghost use Rattle.std.specs.List.{AllByRecursion};
ghost use Rattle.je_order.specs.Words.{is_word};
ghost use Rattle.record_tree.specs.Stored.{lent, values_of};
ghost use Rattle.store_model.specs.declared.extract.Extract.{Extract as By};
ghost use Rattle.store_model.specs.declared.kind.Kind.TheVariants.{Plain, Dup};
ghost use Rattle.secondary.specs.Pairs.{keyed_pairs, pair_in, pairs_in};
ghost use Rattle.log_replay.specs.Rows.{are_right, catalog_index, catalog_number, is_environment, pair_of, store_of};
ghost use Rattle.log_replay.specs.Indexed.{are_same_pairs, is_same_pair};
ghost use Rattle.recovery_je.specs.Checking.{values_in};
ghost use Rattle.recovery_je.specs.Indexing.{IsIndexCheck, IsReadable, first_not_filled as first_not_filled_in, has_pairs_of as has_pairs, is_filled as is_filled_by, lent_row};

use db_catalog::CATALOG;
use je_order::{Word, cmp_bytes};
use log_replay::{index_of, number_of};
use record_tree::{Loads, RecordRef, StoredRecord};
use secondary::{KeyPair, push_pair, sort_pairs};
use std::alloc::{AllocError, Global};
use store_model::Extract;

/// The pairs that an index has for records, in the order of these.
pub(crate) fn pairs_of<'a>(
    alloc: Global,
    records: &[RecordRef<'a>],
    extract: &Extract,
) -> Result<Vec<KeyPair<'a>>, AllocError>
    ensures { IfOk result (λ pairs. pairs_in pairs.items ≡ keyed_pairs extract.now (map (pair_of Plain) (lent records.now))) }
{
    let mut pairs = Vec::new(alloc);
    for record in records {
        push_pair(&mut pairs, extract, record.name.key(), record.value)?;
    }
    Ok(pairs)
}

// Whether an index's record is this pair.
fn is_pair(found: &RecordRef<'_>, pair: &KeyPair<'_>) -> bool
    ensures { result ≡ is_same_pair (pair_of Dup (lent_row found.now)) (pair_in pair.now) }
{
    cmp_bytes(found.name.key(), pair.key).is_eq()
        && cmp_bytes(found.name.dup(), pair.primary_key).is_eq()
}

/// Whether an index's records are these pairs.
pub(crate) fn are_pairs(records: &[RecordRef<'_>], pairs: &[KeyPair<'_>]) -> bool
    ensures { result ≡ are_same_pairs (map (pair_of Dup) (lent records.now)) (pairs_in pairs.now) }
{
    let mut left = pairs;
    for record in records {
        let [pair, behind @ ..] = left else {
            return false;
        };
        if !is_pair(record, pair) {
            return false;
        }
        left = behind;
    }
    left.is_empty()
}

// Whether an index has the pairs of its primary's records: one look at each, and the time of sorting the pairs. Their bytes are
// compared where they lie.
fn has_pairs_of<T: Loads>(
    alloc: Global,
    trees: &T,
    index: u32,
    primary: u32,
    extract: &Extract,
) -> Result<bool, AllocError>
    requires { are_right Plain (values_of (T.stored trees.now primary)) ≡ true }
    ensures { IfOk result (λ same. same ≡ has_pairs extract.now (values_of (T.stored trees.now primary)) (values_of (T.stored trees.now index))) }
{
    let records = trees.lend_records(alloc, primary)?;
    let mut pairs = pairs_of(alloc, &records, extract)?;
    sort_pairs(&mut pairs);
    let records = trees.lend_records(alloc, index)?;
    Ok(are_pairs(&records, &pairs))
}

// Whether a database, if it is an index, has the pairs of its primary's records.
fn is_filled<T: Loads>(alloc: Global, trees: &T, row: &StoredRecord) -> Result<bool, AllocError>
    requires { IsReadable (values_in (T.stored trees.now)) row.now }
    ensures { IfOk result (λ filled. filled ≡ is_filled_by (values_in (T.stored trees.now)) row.now.1.value) }
{
    let value = row.value.as_slice();
    match index_of(value) {
        Some((primary, extract)) => has_pairs_of(alloc, trees, number_of(value), primary, &extract),
        None => Ok(true),
    }
}

// The name of the first of these databases that is an index without the pairs of its primary's records.
fn first_not_filled<T: Loads>(
    alloc: Global,
    trees: &T,
    records: &[StoredRecord],
) -> Result<Option<Word>, AllocError>
    requires { AllByRecursion (IsReadable (values_in (T.stored trees.now))) records.now }
    ensures { IfOk result (λ name. name ≡ first_not_filled_in (values_in (T.stored trees.now)) records.now) }
{
    for record in records {
        if !is_filled(alloc, trees, record)? {
            return Ok(Some(Word::from_slice(alloc, record.name.key.as_slice())?));
        }
    }
    Ok(None)
}

/// The name of the first index, in name order, whose pairs are not those of its primary's records. The time is
/// that of sorting the pairs of each index.
pub(crate) fn wrong_index<T: Loads>(alloc: Global, trees: &T) -> Result<Option<Word>, AllocError>
    requires { is_environment (values_in (T.stored trees.now)) ≡ true }
    ensures { IfOk result (λ name. IsIndexCheck (store_of (values_in (T.stored trees.now))) name) }
{
    let records = trees.records(alloc, CATALOG)?;
    first_not_filled(alloc, trees, &records)
}
