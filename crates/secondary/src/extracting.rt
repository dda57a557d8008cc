// The key that an index has for a record.
ghost use Rattle.std.specs.Prelude.{ℕ, ◌≡◌, ◌==◌, ◌+◌, ◌<◌, IfOk, IfSome, take, drop, length, nat_le, position, None, Some, if◌then◌else◌};
ghost use Rattle.std.specs.List.{slice_get};
ghost use Rattle.std.specs.Option.{option_copied};
ghost use Rattle.je_order.specs.declared.limits.TheConstants.{KEY_LIMIT as MOST};
ghost use Rattle.store_model.specs.Indexes.{fields_of, key_in};
ghost use Rattle.secondary.specs.Fields.{field_behind};

use je_order::{KEY_LIMIT, Octets};
use std::alloc::{AllocError, Global};
use store_model::Extract;

// Where the first separator stands, if there is one.
fn separator_in(bytes: &[u8], separator: u8) -> Option<usize>
    ensures at { result ≡ position (λ byte. byte == separator) bytes.now }
    ensures within { IfSome result (λ end. end < length bytes.now) }
{
    bytes.iter().position(|byte| *byte == separator)
}

// The bytes in front of the first separator.
fn first_field<'a>(bytes: &'a [u8], separator: u8) -> &'a [u8]
    ensures { Some result.now ≡ slice_get (fields_of separator bytes.now) 0 }
{
    match separator_in(bytes, separator) {
        Some(end) => &bytes[..end],
        None => bytes,
    }
}

// What stands behind the first separator, if there is one: the fields but the first.
fn behind_field<'a>(bytes: &'a [u8], separator: u8) -> Option<&'a [u8]>
    ensures { (n : ℕ) → slice_get (fields_of separator bytes.now) (n + 1) ≡ field_behind separator (option_copied result) n }
{
    match separator_in(bytes, separator) {
        Some(end) => Some(&bytes[end + 1..]),
        None => None,
    }
}

// The field with that number. It looks at the bytes up to its end alone.
fn field_in<'a>(value: &'a [u8], number: u32, separator: u8) -> Option<&'a [u8]>
    ensures { option_copied result ≡ slice_get (fields_of separator value.now) number }
{
    let mut rest = value;
    let mut left = number;
    'fields: while left > 0 {
        let Some(behind) = behind_field(rest, separator) else {
            return None;
        };
        rest = behind;
        left -= 1;
    }
    Some(first_field(rest, separator))
}

// A field's bytes as far as a key may be long.
fn as_key<'a>(field: &'a [u8]) -> &'a [u8]
    ensures { result.now ≡ take MOST field.now }
{
    if field.len() > KEY_LIMIT {
        return &field[..KEY_LIMIT];
    }
    field
}

// So many bytes at an offset, where all are there.
fn slice_in<'a>(value: &'a [u8], offset: u32, len: u32) -> Option<&'a [u8]>
    ensures { option_copied result ≡ if nat_le (offset + len) (length value.now) then Some (take len (drop offset value.now)) else None }
{
    let offset = offset as usize;
    let len = len as usize;
    if value.len() < offset {
        return None;
    }
    let rest = &value[offset..];
    if rest.len() < len {
        return None;
    }
    Some(&rest[..len])
}

/// The key that an index has for a record with that data, as a part of it; None where it has none. It takes
/// the time of the bytes up to the key's end.
pub fn key_in<'a>(extract: &Extract, value: &'a [u8]) -> Option<&'a [u8]>
    ensures { option_copied result ≡ key_in extract.now value.now }
{
    match extract {
        Extract::ByteSlice { offset, length } => slice_in(value, *offset, *length),
        Extract::Field { number, separator } => {
            match field_in(value, *number, *separator) {
                Some(field) => Some(as_key(field)),
                None => None,
            }
        }
    }
}

/// The same as bytes of its own. The only error is out of memory.
pub fn extract(alloc: Global, extract: &Extract, value: &[u8]) -> Result<Option<Octets>, AllocError>
    ensures { IfOk result (λ key. key ≡ key_in extract.now value.now) }
{
    match key_in(extract, value) {
        Some(key) => Ok(Some(Octets::from_slice(alloc, key)?)),
        None => Ok(None),
    }
}
