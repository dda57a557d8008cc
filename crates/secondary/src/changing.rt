// What changes in an index with a record of its primary.
ghost use Rattle.std.specs.Prelude.{◌≡◌, ◌++◌, IfOk, OnOk};
ghost use Rattle.std.specs.Option.{option_copied};
ghost use Rattle.store_model.specs.Store.{named};
ghost use Rattle.store_model.specs.Indexes.{key_of, is_same_key, taken_out, put_in, keys_changed, index_changes};

use crate::extracting::key_in;
use je_order::{List, Name, Octets, cmp_bytes};
use std::alloc::{AllocError, Global};
use store_model::{Extract, RecordChange};

// The key that an index has for a record, if there is a record.
fn key_of<'a>(extract: &Extract, value: Option<&'a [u8]>) -> Option<&'a [u8]>
    ensures { option_copied result ≡ key_of extract.now (option_copied value.entry) }
{
    match value {
        Some(value) => key_in(extract, value),
        None => None,
    }
}

// Whether both have a key, and the same.
fn is_same_key(key: Option<&[u8]>, other: Option<&[u8]>) -> bool
    ensures { result ≡ is_same_key (option_copied key.entry) (option_copied other.entry) }
{
    match (key, other) {
        (Some(key), Some(other)) => cmp_bytes(key, other).is_eq(),
        _ => false,
    }
}

// The name of a pair.
fn pair_name(alloc: Global, key: &[u8], primary_key: &[u8]) -> Result<Name, AllocError>
    ensures { IfOk result (λ name. name ≡ named key.now primary_key.now) }
{
    Ok(Name {
        key: Octets::from_slice(alloc, key)?,
        dup: Octets::from_slice(alloc, primary_key)?,
    })
}

// The pair of a key goes.
fn take_out(
    changes: &mut Vec<RecordChange>,
    alloc: Global,
    primary_key: &[u8],
    key: Option<&[u8]>,
) -> Result<(), AllocError>
    ensures { OnOk result (changes.new.items ≡ changes.old.items ++ taken_out primary_key.now (option_copied key.entry)) }
{
    let Some(key) = key else {
        return Ok(());
    };
    let at = pair_name(alloc, key, primary_key)?;
    changes.push(RecordChange::Unset { at })?;
    Ok(())
}

// The pair of a key comes.
fn put_in(
    changes: &mut Vec<RecordChange>,
    alloc: Global,
    primary_key: &[u8],
    key: Option<&[u8]>,
) -> Result<(), AllocError>
    ensures { OnOk result (changes.new.items ≡ changes.old.items ++ put_in primary_key.now (option_copied key.entry)) }
{
    let Some(key) = key else {
        return Ok(());
    };
    let at = pair_name(alloc, key, primary_key)?;
    let value = Octets::new(alloc);
    changes.push(RecordChange::Set { at, value })?;
    Ok(())
}

fn keys_changed(
    alloc: Global,
    primary_key: &[u8],
    old: Option<&[u8]>,
    new: Option<&[u8]>,
) -> Result<List<RecordChange>, AllocError>
    ensures { IfOk result (λ changes. changes ≡ keys_changed primary_key.now (option_copied old.entry) (option_copied new.entry)) }
{
    if is_same_key(old, new) {
        return Ok(List::new(alloc));
    }
    let mut changes = Vec::new(alloc);
    take_out(&mut changes, alloc, primary_key, old)?;
    put_in(&mut changes, alloc, primary_key, new)?;
    Ok(List::from_vec(changes))
}

/// What changes in an index with the record of that key in its primary, whose data was `old` and is then `new`,
/// None where there is no record: the pair of its old key goes, and then that of its new key comes; nothing where
/// both are the same. The only error is out of memory.
pub fn index_changes(
    alloc: Global,
    extract: &Extract,
    primary_key: &[u8],
    old: Option<&[u8]>,
    new: Option<&[u8]>,
) -> Result<List<RecordChange>, AllocError>
    ensures { IfOk result (λ changes. changes ≡ index_changes extract.now primary_key.now (option_copied old.entry) (option_copied new.entry)) }
{
    let old = key_of(extract, old);
    let new = key_of(extract, new);
    keys_changed(alloc, primary_key, old, new)
}
