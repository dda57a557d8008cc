// The lines that make an index.
ghost use Rattle.std.specs.Prelude.{◌≡◌, ◌≤◌, true, Some, IfOk};
ghost use Rattle.std.specs.Option.{IfSome};
ghost use Rattle.std.specs.Str.{bytes_eq};
ghost use Rattle.je_order.specs.Words.{is_word};
ghost use Rattle.store_model.specs.Making.{IsWithinLimits};
ghost use Rattle.script_text.specs.Bytes.{bytes_of};
ghost use Rattle.script_text.specs.Indexes.{with_digit, with_digits, number_of, number_within, one_byte, slice_by, field_by, extract_of, index_call, index_of};

use crate::bytes::bytes_of;
use crate::session::is_digit;
use crate::words::Words;
use je_order::{Octets, Word};
use std::alloc::{AllocError, Global};
use store_model::{Call, Extract, Index, MOST_OFFSET, MOST_SLICE};

// A number with one decimal digit more.
fn with_digit(front: u32, digit: u8) -> Option<u32>
    ensures { result ≡ with_digit front digit }
{
    if !is_digit(digit) {
        return None;
    }
    front.checked_mul(10)?.checked_add(u32::from(digit - b'0'))
}

// The number that decimal digits spell.
fn with_digits(word: &[u8]) -> Option<u32>
    ensures { result ≡ with_digits (Some 0) word.now }
{
    let mut number = 0u32;
    for digit in word {
        number = with_digit(number, *digit)?;
    }
    Some(number)
}

// The number that a word spells, if it spells one.
fn number_of(word: &[u8]) -> Option<u32>
    ensures { result ≡ number_of word.now }
{
    match word {
        [] => None,
        [b'0', _, ..] => None,
        [_, ..] => with_digits(word),
    }
}

// A number within bounds.
fn number_within(least: u32, most: u32, number: Option<u32>) -> Option<u32>
    ensures value { result ≡ number_within least most number }
    ensures within { IfSome result (λ number. (least ≤ number) × (number ≤ most)) }
{
    let number = number?;
    if least <= number && number <= most {
        Some(number)
    } else {
        None
    }
}

// The only byte.
fn one_byte(bytes: Option<Octets>) -> Option<u8>
    ensures { result ≡ one_byte bytes }
{
    match bytes?.as_slice() {
        [byte] => Some(*byte),
        _ => None,
    }
}

fn slice_by(offset: Option<u32>, length: Option<u32>) -> Option<Extract>
    requires offset { IfSome offset (λ offset. offset ≤ 65535) }
    requires length { IfSome length (λ length. (1 ≤ length) × (length ≤ 4096)) }
    ensures value { result ≡ slice_by offset length }
    ensures limits { IfSome result IsWithinLimits }
{
    let offset = offset?;
    let length = length?;
    Some(Extract::ByteSlice { offset, length })
}

fn field_by(number: Option<u32>, separator: Option<u8>) -> Option<Extract>
    ensures value { result ≡ field_by number separator }
    ensures limits { IfSome result IsWithinLimits }
{
    let number = number?;
    let separator = separator?;
    Some(Extract::Field { number, separator })
}

// Which key a record has in an index, where the words say one.
fn extract_of(
    alloc: Global,
    way: &[u8],
    first: &[u8],
    second: &[u8],
) -> Result<Option<Extract>, AllocError>
    ensures value { IfOk result (λ extract. extract ≡ extract_of way.now first.now second.now) }
    ensures limits { IfOk result (λ extract. IfSome extract IsWithinLimits) }
{
    if way == b"slice".as_slice() {
        let offset = number_within(0, MOST_OFFSET, number_of(first));
        let length = number_within(1, MOST_SLICE, number_of(second));
        Ok(slice_by(offset, length))
    } else if way == b"field".as_slice() {
        let separator = one_byte(bytes_of(alloc, second)?);
        Ok(field_by(number_of(first), separator))
    } else {
        Ok(None)
    }
}

fn index_call(
    alloc: Global,
    db: &[u8],
    primary: &[u8],
    extract: Option<Extract>,
) -> Result<Option<Call>, AllocError>
    requires db { is_word db.now ≡ true }
    requires primary { is_word primary.now ≡ true }
    requires limits { IfSome extract IsWithinLimits }
    ensures { IfOk result (λ call. call ≡ index_call db.now primary.now extract) }
{
    let Some(extract) = extract else {
        return Ok(None);
    };
    let db = Word::from_slice(alloc, db)?;
    let primary = Word::from_slice(alloc, primary)?;
    let index = Index { primary, extract };
    Ok(Some(Call::CreateIndex { db, index }))
}

// The call that makes an index, where the words behind its primary's name spell one.
pub fn index_of(
    alloc: Global,
    db: &[u8],
    kind: &[u8],
    primary: &[u8],
    mut words: Words,
) -> Result<Option<Call>, AllocError>
    ensures { IfOk result (λ call. call ≡ index_of db.now kind.now primary.now words.entry) }
{
    let Some(way) = words.next() else {
        return Ok(None);
    };
    let Some(first) = words.next() else {
        return Ok(None);
    };
    let Some(second) = words.next() else {
        return Ok(None);
    };
    if words.next().is_some() || kind != b"index".as_slice() {
        return Ok(None);
    }
    if !Word::is_word(db) || !Word::is_word(primary) {
        return Ok(None);
    }
    let extract = extract_of(alloc, way, first, second)?;
    index_call(alloc, db, primary, extract)
}
