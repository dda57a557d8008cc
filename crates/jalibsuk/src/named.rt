// Calls on databases that handles name.
ghost use Rattle.std.specs.Prelude.{◌≡◌, ℕ, IsTrue, List, Option as Maybe, Some, option_map, false};
ghost use Rattle.je_order.specs.Words.{is_word};
ghost use Rattle.store_model.specs.declared.call.Call.TheVariants.{Delete as Deletes, Get as Gets, GetBoth as GetsBoth, Put as Puts};
ghost use Rattle.jalibsuk.specs.Named.{IsMade, name_of_handle};

use crate::Error;
use je_order::{Octets, Word, copy_of};
use std::alloc::{AllocError, Global};
use store_model::{Call, PutMode};

// The name of a handle's database.
pub(crate) fn find_name(names: &[Option<Word>], number: usize) -> Option<&Word>
    ensures { option_map (λ w. w.now) result ≡ name_of_handle number names.now }
{
    match names.get(number) {
        Some(Some(name)) => Some(name),
        _ => None,
    }
}

// A copy of it.
pub(crate) fn name_of(names: &[Option<Word>], number: usize) -> Result<Word, Error>
    ensures { IsMade (name_of_handle number names.now) result }
{
    match find_name(names, number) {
        Some(name) => {
            match copy_of(name) {
                Ok(name) => Ok(name),
                Err(_) => Err(Error::Memory),
            }
        }
        None => Err(Error::NoDatabase),
    }
}

// A text as a name.
pub(crate) fn word(alloc: Global, name: &[u8]) -> Result<Word, Error>
    requires { IsTrue (is_word name.now) }
    ensures { IsMade (Some name.now) result }
{
    match Word::from_slice(alloc, name) {
        Ok(word) => Ok(word),
        Err(_) => Err(Error::Memory),
    }
}

// Reads a key.
pub(crate) fn get(
    alloc: Global,
    names: &[Option<Word>],
    number: usize,
    key: &[u8],
    rmw: bool,
) -> Result<Call, Error>
    ensures { IsMade (option_map (λ n. Gets n key.now rmw) (name_of_handle number names.now)) result }
{
    let db = name_of(names, number)?;
    let key = Octets::from_slice(alloc, key)?;
    Ok(Call::Get { db, key, rmw })
}

// Reads the record of a key and data.
pub(crate) fn get_both(
    alloc: Global,
    names: &[Option<Word>],
    number: usize,
    key: &[u8],
    value: &[u8],
) -> Result<Call, Error>
    ensures { IsMade (option_map (λ n. GetsBoth n key.now value.now false) (name_of_handle number names.now)) result }
{
    let db = name_of(names, number)?;
    let key = Octets::from_slice(alloc, key)?;
    let value = Octets::from_slice(alloc, value)?;
    Ok(Call::GetBoth {
        db,
        key,
        value,
        rmw: false,
    })
}

// Writes a record.
pub(crate) fn put(
    alloc: Global,
    names: &[Option<Word>],
    number: usize,
    key: &[u8],
    value: &[u8],
    mode: PutMode,
) -> Result<Call, Error>
    ensures { IsMade (option_map (λ n. Puts n key.now value.now mode) (name_of_handle number names.now)) result }
{
    let db = name_of(names, number)?;
    let key = Octets::from_slice(alloc, key)?;
    let value = Octets::from_slice(alloc, value)?;
    Ok(Call::Put {
        db,
        key,
        value,
        mode,
    })
}

// Takes the records of a key out.
pub(crate) fn delete(
    alloc: Global,
    names: &[Option<Word>],
    number: usize,
    key: &[u8],
) -> Result<Call, Error>
    ensures { IsMade (option_map (λ n. Deletes n key.now) (name_of_handle number names.now)) result }
{
    let db = name_of(names, number)?;
    let key = Octets::from_slice(alloc, key)?;
    Ok(Call::Delete { db, key })
}
