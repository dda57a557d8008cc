// The forms of calls of cursors.
ghost use Rattle.std.specs.Prelude.{◌≡◌, ◌&&◌, ◌==◌, ◌-◌, true, nat_le, None, Some, IfOk, if◌then◌else◌};
ghost use Rattle.je_order.specs.Words.{is_word};
ghost use Rattle.script_text.specs.Bytes.{bytes_of};
ghost use Rattle.script_text.specs.Cursors.{cursor_of, open_call, open_of, only_cursor, close_of, count_of, cdel_of, dup_of, motion_of, cur_call, keyed, paired, key_of, pair_of, move_of, cur_of, cput_call, cput_of, cputcur_call, cputcur_of, cursor_call_of};

use crate::bytes::bytes_of;
use crate::calls::rmw_of;
use crate::words::Words;
use je_order::{Octets, Word};
use std::alloc::{AllocError, Global};
use store_model::{Call, Motion, PutMode};

// The call of a cursor that a verb and the words behind it spell, if they spell one.
pub(crate) fn cursor_call_of(
    alloc: Global,
    verb: &[u8],
    words: Words,
) -> Result<Option<Call>, AllocError>
    ensures { IfOk result (λ call. call ≡ cursor_call_of verb.now words.entry) }
{
    if verb == b"open".as_slice() {
        open_of(alloc, words)
    } else if verb == b"close".as_slice() {
        Ok(close_of(words))
    } else if verb == b"dup".as_slice() {
        Ok(dup_of(words))
    } else if verb == b"count".as_slice() {
        Ok(count_of(words))
    } else if verb == b"cur".as_slice() {
        cur_of(alloc, words)
    } else if verb == b"cput".as_slice() {
        cput_of(alloc, PutMode::Overwrite, words)
    } else if verb == b"cputno".as_slice() {
        cput_of(alloc, PutMode::NoOverwrite, words)
    } else if verb == b"cputnodup".as_slice() {
        cput_of(alloc, PutMode::NoDupData, words)
    } else if verb == b"cputcur".as_slice() {
        cputcur_of(alloc, words)
    } else if verb == b"cdel".as_slice() {
        Ok(cdel_of(words))
    } else {
        Ok(None)
    }
}

// The number of a cursor, by its letter and its digit.
fn cursor_number(letter: u8, digit: u8) -> Option<u8>
    ensures { result ≡ (if (letter == 99) && nat_le 49 digit && nat_le digit 56 then Some (digit - 48) else None) }
{
    if letter == b'c' && digit >= b'1' && digit <= b'8' {
        Some(digit - b'0')
    } else {
        None
    }
}

// The number of the cursor that a word names, if it names one.
fn cursor_of(word: &[u8]) -> Option<u8>
    ensures { result ≡ cursor_of word.now }
{
    match word {
        [letter, digit] => cursor_number(*letter, *digit),
        _ => None,
    }
}

fn open_of(alloc: Global, mut words: Words) -> Result<Option<Call>, AllocError>
    ensures { IfOk result (λ call. call ≡ open_of words.entry) }
{
    let Some(cursor) = words.next() else {
        return Ok(None);
    };
    let Some(db) = words.next() else {
        return Ok(None);
    };
    if words.next().is_some() || !Word::is_word(db) {
        return Ok(None);
    }
    open_call(alloc, db, cursor_of(cursor))
}

fn open_call(alloc: Global, db: &[u8], cursor: Option<u8>) -> Result<Option<Call>, AllocError>
    requires { is_word db.now ≡ true }
    ensures { IfOk result (λ call. call ≡ open_call db.now cursor) }
{
    let Some(cursor) = cursor else {
        return Ok(None);
    };
    let db = Word::from_slice(alloc, db)?;
    Ok(Some(Call::Open { cursor, db }))
}

// The cursor of a line that names nothing else.
fn only_cursor(mut words: Words) -> Option<u8>
    ensures { result ≡ only_cursor words.entry }
{
    let cursor = words.next()?;
    if words.next().is_some() {
        return None;
    }
    cursor_of(cursor)
}

fn close_of(words: Words) -> Option<Call>
    ensures { result ≡ close_of words.entry }
{
    match only_cursor(words) {
        None => None,
        Some(cursor) => Some(Call::Close { cursor }),
    }
}

fn count_of(words: Words) -> Option<Call>
    ensures { result ≡ count_of words.entry }
{
    match only_cursor(words) {
        None => None,
        Some(cursor) => Some(Call::Count { cursor }),
    }
}

fn cdel_of(words: Words) -> Option<Call>
    ensures { result ≡ cdel_of words.entry }
{
    match only_cursor(words) {
        None => None,
        Some(cursor) => Some(Call::CDel { cursor }),
    }
}

fn dup_of(mut words: Words) -> Option<Call>
    ensures { result ≡ dup_of words.entry }
{
    let cursor = words.next()?;
    let to = words.next()?;
    if words.next().is_some() {
        return None;
    }
    Some(Call::Dup {
        cursor: cursor_of(cursor)?,
        to: cursor_of(to)?,
    })
}

// Where a cursor moves, by one word.
fn motion_of(word: &[u8]) -> Option<Motion>
    ensures { result ≡ motion_of word.now }
{
    if word == b"first".as_slice() {
        Some(Motion::First)
    } else if word == b"last".as_slice() {
        Some(Motion::Last)
    } else if word == b"next".as_slice() {
        Some(Motion::Next)
    } else if word == b"prev".as_slice() {
        Some(Motion::Prev)
    } else if word == b"nextdup".as_slice() {
        Some(Motion::NextDup)
    } else if word == b"prevdup".as_slice() {
        Some(Motion::PrevDup)
    } else if word == b"nextnodup".as_slice() {
        Some(Motion::NextNoDup)
    } else if word == b"prevnodup".as_slice() {
        Some(Motion::PrevNoDup)
    } else if word == b"current".as_slice() {
        Some(Motion::Current)
    } else {
        None
    }
}

fn cur_call(cursor: Option<u8>, motion: Option<Motion>, rmw: Option<bool>) -> Option<Call>
    ensures { result ≡ cur_call cursor motion rmw }
{
    let cursor = cursor?;
    let motion = motion?;
    let rmw = rmw?;
    Some(Call::Cur {
        cursor,
        motion,
        rmw,
    })
}

// To a key, or from it on.
fn keyed(range: bool, key: Option<Octets>) -> Option<Motion>
    ensures { result ≡ keyed range key }
{
    let key = key?;
    if range {
        Some(Motion::Range { key })
    } else {
        Some(Motion::Key { key })
    }
}

// To a key and data, or from them on.
fn paired(range: bool, key: Option<Octets>, value: Option<Octets>) -> Option<Motion>
    ensures { result ≡ paired range key value }
{
    let key = key?;
    let value = value?;
    if range {
        Some(Motion::BothRange { key, value })
    } else {
        Some(Motion::Both { key, value })
    }
}

fn key_of(
    alloc: Global,
    cursor: Option<u8>,
    range: bool,
    mut words: Words,
) -> Result<Option<Call>, AllocError>
    ensures { IfOk result (λ call. call ≡ key_of cursor range words.entry) }
{
    let Some(key) = words.next() else {
        return Ok(None);
    };
    let key = bytes_of(alloc, key)?;
    Ok(cur_call(cursor, keyed(range, key), rmw_of(words)))
}

fn pair_of(
    alloc: Global,
    cursor: Option<u8>,
    range: bool,
    mut words: Words,
) -> Result<Option<Call>, AllocError>
    ensures { IfOk result (λ call. call ≡ pair_of cursor range words.entry) }
{
    let Some(key) = words.next() else {
        return Ok(None);
    };
    let Some(value) = words.next() else {
        return Ok(None);
    };
    let key = bytes_of(alloc, key)?;
    let value = bytes_of(alloc, value)?;
    Ok(cur_call(cursor, paired(range, key, value), rmw_of(words)))
}

fn move_of(
    alloc: Global,
    cursor: Option<u8>,
    motion: &[u8],
    words: Words,
) -> Result<Option<Call>, AllocError>
    ensures { IfOk result (λ call. call ≡ move_of cursor motion.now words.entry) }
{
    if motion == b"key".as_slice() {
        key_of(alloc, cursor, false, words)
    } else if motion == b"range".as_slice() {
        key_of(alloc, cursor, true, words)
    } else if motion == b"both".as_slice() {
        pair_of(alloc, cursor, false, words)
    } else if motion == b"bothrange".as_slice() {
        pair_of(alloc, cursor, true, words)
    } else {
        Ok(cur_call(cursor, motion_of(motion), rmw_of(words)))
    }
}

fn cur_of(alloc: Global, mut words: Words) -> Result<Option<Call>, AllocError>
    ensures { IfOk result (λ call. call ≡ cur_of words.entry) }
{
    let Some(cursor) = words.next() else {
        return Ok(None);
    };
    let Some(motion) = words.next() else {
        return Ok(None);
    };
    move_of(alloc, cursor_of(cursor), motion, words)
}

fn cput_of(alloc: Global, mode: PutMode, mut words: Words) -> Result<Option<Call>, AllocError>
    ensures { IfOk result (λ call. call ≡ cput_of mode words.entry) }
{
    let Some(cursor) = words.next() else {
        return Ok(None);
    };
    let Some(key) = words.next() else {
        return Ok(None);
    };
    let Some(value) = words.next() else {
        return Ok(None);
    };
    if words.next().is_some() {
        return Ok(None);
    }
    cput_call(alloc, mode, cursor_of(cursor), key, value)
}

fn cput_call(
    alloc: Global,
    mode: PutMode,
    cursor: Option<u8>,
    key: &[u8],
    value: &[u8],
) -> Result<Option<Call>, AllocError>
    ensures { IfOk result (λ call. call ≡ cput_call mode cursor (bytes_of key.now) (bytes_of value.now)) }
{
    let Some(cursor) = cursor else {
        return Ok(None);
    };
    let Some(key) = bytes_of(alloc, key)? else {
        return Ok(None);
    };
    let Some(value) = bytes_of(alloc, value)? else {
        return Ok(None);
    };
    Ok(Some(Call::CPut {
        cursor,
        key,
        value,
        mode,
    }))
}

fn cputcur_of(alloc: Global, mut words: Words) -> Result<Option<Call>, AllocError>
    ensures { IfOk result (λ call. call ≡ cputcur_of words.entry) }
{
    let Some(cursor) = words.next() else {
        return Ok(None);
    };
    let Some(value) = words.next() else {
        return Ok(None);
    };
    if words.next().is_some() {
        return Ok(None);
    }
    cputcur_call(alloc, cursor_of(cursor), value)
}

fn cputcur_call(alloc: Global, cursor: Option<u8>, value: &[u8]) -> Result<Option<Call>, AllocError>
    ensures { IfOk result (λ call. call ≡ cputcur_call cursor (bytes_of value.now)) }
{
    let Some(cursor) = cursor else {
        return Ok(None);
    };
    let Some(value) = bytes_of(alloc, value)? else {
        return Ok(None);
    };
    Ok(Some(Call::CPutCur { cursor, value }))
}
