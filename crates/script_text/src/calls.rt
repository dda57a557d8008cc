// The forms of calls.
ghost use Rattle.std.specs.Prelude.{◌≡◌, true, IfOk, if◌then◌else◌};
ghost use Rattle.je_order.specs.Words.{is_word};
ghost use Rattle.script_text.specs.Grammar.{call_of, begin_of, level_of, durability_of, wait_of, commit_of, abort_of, list_of, kind_of, create_call, create_of, remove_of, rename_of, truncate_of, put_call, put_of, get_of, get_call, get_both_call, get_both_of, delete_call, delete_of};
ghost use Rattle.script_text.specs.Bytes.{bytes_of};
ghost use Rattle.script_text.specs.Cursors.{rmw_of};

use crate::bytes::bytes_of;
use crate::cursor_calls::cursor_call_of;
use crate::index_calls::index_of;
use crate::words::Words;
use je_order::Word;
use std::alloc::{AllocError, Global};
use store_model::{Call, Durability, Isolation, Kind, PutMode};

// The call that a verb and the words behind it spell, if they spell one. What scripts have most of is looked at first.
pub fn call_of(alloc: Global, verb: &[u8], words: Words) -> Result<Option<Call>, AllocError>
    ensures { IfOk result (λ call. call ≡ call_of verb.now words.entry) }
{
    if verb == b"get".as_slice() {
        get_of(alloc, words)
    } else if verb == b"put".as_slice() {
        put_of(alloc, PutMode::Overwrite, words)
    } else {
        any_call_of(alloc, verb, words)
    }
}

// The same for any verb.
fn any_call_of(alloc: Global, verb: &[u8], words: Words) -> Result<Option<Call>, AllocError>
    ensures { IfOk result (λ call. call ≡ call_of verb.now words.entry) }
{
    if verb == b"begin".as_slice() {
        Ok(begin_of(words))
    } else if verb == b"commit".as_slice() {
        Ok(commit_of(words))
    } else if verb == b"abort".as_slice() {
        Ok(abort_of(words))
    } else if verb == b"list".as_slice() {
        Ok(list_of(words))
    } else if verb == b"create".as_slice() {
        create_of(alloc, words)
    } else if verb == b"remove".as_slice() {
        remove_of(alloc, words)
    } else if verb == b"rename".as_slice() {
        rename_of(alloc, words)
    } else if verb == b"truncate".as_slice() {
        truncate_of(alloc, words)
    } else if verb == b"put".as_slice() {
        put_of(alloc, PutMode::Overwrite, words)
    } else if verb == b"putno".as_slice() {
        put_of(alloc, PutMode::NoOverwrite, words)
    } else if verb == b"putnodup".as_slice() {
        put_of(alloc, PutMode::NoDupData, words)
    } else if verb == b"get".as_slice() {
        get_of(alloc, words)
    } else if verb == b"getboth".as_slice() {
        get_both_of(alloc, words)
    } else if verb == b"delete".as_slice() {
        delete_of(alloc, words)
    } else {
        cursor_call_of(alloc, verb, words)
    }
}

fn level_of(word: &[u8]) -> Option<Isolation>
    ensures { result ≡ level_of word.now }
{
    if word == b"ru".as_slice() {
        Some(Isolation::ReadUncommitted)
    } else if word == b"rc".as_slice() {
        Some(Isolation::ReadCommitted)
    } else if word == b"rr".as_slice() {
        Some(Isolation::RepeatableRead)
    } else if word == b"ser".as_slice() {
        Some(Isolation::Serializable)
    } else {
        None
    }
}

fn durability_of(word: &[u8]) -> Option<Durability>
    ensures { result ≡ durability_of word.now }
{
    if word == b"sync".as_slice() {
        Some(Durability::Sync)
    } else if word == b"wsync".as_slice() {
        Some(Durability::WriteNoSync)
    } else if word == b"nosync".as_slice() {
        Some(Durability::NoSync)
    } else {
        None
    }
}

fn wait_of(word: &[u8]) -> Option<bool>
    ensures { result ≡ wait_of word.now }
{
    if word == b"wait".as_slice() {
        Some(true)
    } else if word == b"nowait".as_slice() {
        Some(false)
    } else {
        None
    }
}

fn begin_of(mut words: Words) -> Option<Call>
    ensures { result ≡ begin_of words.entry }
{
    let level = words.next()?;
    let durability = words.next()?;
    let wait = words.next()?;
    if words.next().is_some() {
        return None;
    }
    Some(Call::Begin {
        level: level_of(level)?,
        durability: durability_of(durability)?,
        wait: wait_of(wait)?,
    })
}

fn commit_of(mut words: Words) -> Option<Call>
    ensures { result ≡ commit_of words.entry }
{
    if words.next().is_some() {
        None
    } else {
        Some(Call::Commit)
    }
}

fn abort_of(mut words: Words) -> Option<Call>
    ensures { result ≡ abort_of words.entry }
{
    if words.next().is_some() {
        None
    } else {
        Some(Call::Abort)
    }
}

fn list_of(mut words: Words) -> Option<Call>
    ensures { result ≡ list_of words.entry }
{
    if words.next().is_some() {
        None
    } else {
        Some(Call::List)
    }
}

fn kind_of(word: &[u8]) -> Option<Kind>
    ensures { result ≡ kind_of word.now }
{
    if word == b"plain".as_slice() {
        Some(Kind::Plain)
    } else if word == b"dup".as_slice() {
        Some(Kind::Dup)
    } else {
        None
    }
}

fn create_of(alloc: Global, mut words: Words) -> Result<Option<Call>, AllocError>
    ensures { IfOk result (λ call. call ≡ create_of words.entry) }
{
    let Some(db) = words.next() else {
        return Ok(None);
    };
    let Some(kind) = words.next() else {
        return Ok(None);
    };
    if let Some(primary) = words.next() {
        return index_of(alloc, db, kind, primary, words);
    }
    if !Word::is_word(db) {
        return Ok(None);
    }
    create_call(alloc, db, kind_of(kind))
}

fn create_call(alloc: Global, db: &[u8], kind: Option<Kind>) -> Result<Option<Call>, AllocError>
    requires { is_word db.now ≡ true }
    ensures { IfOk result (λ call. call ≡ create_call db.now kind) }
{
    let Some(kind) = kind else {
        return Ok(None);
    };
    let db = Word::from_slice(alloc, db)?;
    Ok(Some(Call::Create { db, kind }))
}

fn remove_of(alloc: Global, mut words: Words) -> Result<Option<Call>, AllocError>
    ensures { IfOk result (λ call. call ≡ remove_of words.entry) }
{
    let Some(db) = words.next() else {
        return Ok(None);
    };
    if words.next().is_some() || !Word::is_word(db) {
        return Ok(None);
    }
    let db = Word::from_slice(alloc, db)?;
    Ok(Some(Call::Remove { db }))
}

fn rename_of(alloc: Global, mut words: Words) -> Result<Option<Call>, AllocError>
    ensures { IfOk result (λ call. call ≡ rename_of words.entry) }
{
    let Some(db) = words.next() else {
        return Ok(None);
    };
    let Some(to) = words.next() else {
        return Ok(None);
    };
    if words.next().is_some() || !Word::is_word(db) || !Word::is_word(to) {
        return Ok(None);
    }
    let db = Word::from_slice(alloc, db)?;
    let to = Word::from_slice(alloc, to)?;
    Ok(Some(Call::Rename { db, to }))
}

fn truncate_of(alloc: Global, mut words: Words) -> Result<Option<Call>, AllocError>
    ensures { IfOk result (λ call. call ≡ truncate_of words.entry) }
{
    let Some(db) = words.next() else {
        return Ok(None);
    };
    if words.next().is_some() || !Word::is_word(db) {
        return Ok(None);
    }
    let db = Word::from_slice(alloc, db)?;
    Ok(Some(Call::Truncate { db }))
}

fn put_of(alloc: Global, mode: PutMode, mut words: Words) -> Result<Option<Call>, AllocError>
    ensures { IfOk result (λ call. call ≡ put_of mode words.entry) }
{
    let Some(db) = words.next() else {
        return Ok(None);
    };
    let Some(key) = words.next() else {
        return Ok(None);
    };
    let Some(value) = words.next() else {
        return Ok(None);
    };
    if words.next().is_some() || !Word::is_word(db) {
        return Ok(None);
    }
    plain_put(alloc, mode, db, key, value)
}

fn plain_put(
    alloc: Global,
    mode: PutMode,
    db: &[u8],
    key: &[u8],
    value: &[u8],
) -> Result<Option<Call>, AllocError>
    requires { is_word db.now ≡ true }
    ensures { IfOk result (λ call. call ≡ put_call mode db.now (bytes_of key.now) (bytes_of value.now)) }
{
    let Some(key) = bytes_of(alloc, key)? else {
        return Ok(None);
    };
    let Some(value) = bytes_of(alloc, value)? else {
        return Ok(None);
    };
    let db = Word::from_slice(alloc, db)?;
    Ok(Some(Call::Put {
        db,
        key,
        value,
        mode,
    }))
}

// Whether a read is for a change, by the last words of its line; none where they are no read's.
pub(crate) fn rmw_of(mut words: Words) -> Option<bool>
    ensures { result ≡ rmw_of words.entry }
{
    let Some(rmw) = words.next() else {
        return Some(false);
    };
    if words.next().is_some() || rmw != b"rmw".as_slice() {
        return None;
    }
    Some(true)
}

fn get_of(alloc: Global, mut words: Words) -> Result<Option<Call>, AllocError>
    ensures { IfOk result (λ call. call ≡ get_of words.entry) }
{
    let Some(db) = words.next() else {
        return Ok(None);
    };
    let Some(key) = words.next() else {
        return Ok(None);
    };
    match rmw_of(words) {
        Some(rmw) => plain_get(alloc, db, key, rmw),
        None => Ok(None),
    }
}

fn plain_get(alloc: Global, db: &[u8], key: &[u8], rmw: bool) -> Result<Option<Call>, AllocError>
    ensures { IfOk result (λ call.
        call ≡ (if is_word db.now then get_call db.now rmw (bytes_of key.now) else None)) }
{
    if !Word::is_word(db) {
        return Ok(None);
    }
    let Some(key) = bytes_of(alloc, key)? else {
        return Ok(None);
    };
    let db = Word::from_slice(alloc, db)?;
    Ok(Some(Call::Get { db, key, rmw }))
}

fn get_both_of(alloc: Global, mut words: Words) -> Result<Option<Call>, AllocError>
    ensures { IfOk result (λ call. call ≡ get_both_of words.entry) }
{
    let Some(db) = words.next() else {
        return Ok(None);
    };
    let Some(key) = words.next() else {
        return Ok(None);
    };
    let Some(value) = words.next() else {
        return Ok(None);
    };
    if !Word::is_word(db) {
        return Ok(None);
    }
    plain_get_both(alloc, db, key, value, rmw_of(words))
}

fn plain_get_both(
    alloc: Global,
    db: &[u8],
    key: &[u8],
    value: &[u8],
    rmw: Option<bool>,
) -> Result<Option<Call>, AllocError>
    requires { is_word db.now ≡ true }
    ensures { IfOk result (λ call. call ≡ get_both_call db.now (bytes_of key.now) (bytes_of value.now) rmw) }
{
    let Some(rmw) = rmw else {
        return Ok(None);
    };
    let Some(key) = bytes_of(alloc, key)? else {
        return Ok(None);
    };
    let Some(value) = bytes_of(alloc, value)? else {
        return Ok(None);
    };
    let db = Word::from_slice(alloc, db)?;
    Ok(Some(Call::GetBoth {
        db,
        key,
        value,
        rmw,
    }))
}

fn delete_of(alloc: Global, mut words: Words) -> Result<Option<Call>, AllocError>
    ensures { IfOk result (λ call. call ≡ delete_of words.entry) }
{
    let Some(db) = words.next() else {
        return Ok(None);
    };
    let Some(key) = words.next() else {
        return Ok(None);
    };
    if words.next().is_some() || !Word::is_word(db) {
        return Ok(None);
    }
    plain_delete(alloc, db, key)
}

fn plain_delete(alloc: Global, db: &[u8], key: &[u8]) -> Result<Option<Call>, AllocError>
    requires { is_word db.now ≡ true }
    ensures { IfOk result (λ call. call ≡ delete_call db.now (bytes_of key.now)) }
{
    let Some(key) = bytes_of(alloc, key)? else {
        return Ok(None);
    };
    let db = Word::from_slice(alloc, db)?;
    Ok(Some(Call::Delete { db, key }))
}
