// Calls on a store, their answers and the stores after them.
use je_order::{Octets, Word};
use std::alloc::{AllocError, Global};
use store_eval::eval;
use store_model::{Answer, Call, Kind, PutMode, Store};

// A call on a database, or on all of them.
#[derive(Clone, Copy)]
enum Step {
    List,
    Create,
    CreateDup,
    Remove,
    Rename,
    Truncate,
    Put(&'static str, &'static str),
    PutNo(&'static str, &'static str),
    PutPair(&'static str, &'static str),
    Get(&'static str),
    GetBoth(&'static str, &'static str),
    Delete(&'static str),
}

fn octets(alloc: Global, text: &str) -> Result<Octets, AllocError> {
    Octets::from_slice(alloc, text.as_bytes())
}

// A put of a pair by its mode; with none a get of the pair.
fn put(
    alloc: Global,
    db: Word,
    key: &str,
    value: &str,
    mode: Option<PutMode>,
) -> Result<Call, AllocError> {
    let key = octets(alloc, key)?;
    let value = octets(alloc, value)?;
    Ok(match mode {
        Some(mode) => Call::Put {
            db,
            key,
            value,
            mode,
        },
        None => Call::GetBoth {
            db,
            key,
            value,
            rmw: false,
        },
    })
}

// A get of a key, or its deletion.
fn get(alloc: Global, db: Word, key: &str, deletes: bool) -> Result<Call, AllocError> {
    let key = octets(alloc, key)?;
    if deletes {
        Ok(Call::Delete { db, key })
    } else {
        Ok(Call::Get {
            db,
            key,
            rmw: false,
        })
    }
}

// The call of a step on a database; a rename takes the other name.
fn call_of(alloc: Global, db: Word, to: Word, step: Step) -> Result<Call, AllocError> {
    match step {
        Step::List => Ok(Call::List),
        Step::Create => Ok(Call::Create {
            db,
            kind: Kind::Plain,
        }),
        Step::CreateDup => Ok(Call::Create {
            db,
            kind: Kind::Dup,
        }),
        Step::Remove => Ok(Call::Remove { db }),
        Step::Rename => Ok(Call::Rename { db, to }),
        Step::Truncate => Ok(Call::Truncate { db }),
        Step::Put(key, value) => put(alloc, db, key, value, Some(PutMode::Overwrite)),
        Step::PutNo(key, value) => put(alloc, db, key, value, Some(PutMode::NoOverwrite)),
        Step::PutPair(key, value) => put(alloc, db, key, value, Some(PutMode::NoDupData)),
        Step::GetBoth(key, value) => put(alloc, db, key, value, None),
        Step::Get(key) => get(alloc, db, key, false),
        Step::Delete(key) => get(alloc, db, key, true),
    }
}

fn names_text(alloc: Global, names: &[Word]) -> Result<Vec<u8>, AllocError> {
    let mut text = Vec::from_slice(alloc, b"names")?;
    for name in names {
        text.push(b' ')?;
        text.extend_from_slice(name.as_slice())?;
    }
    Ok(text)
}

fn pair_text(alloc: Global, key: &[u8], value: &[u8]) -> Result<Vec<u8>, AllocError> {
    let mut text = Vec::from_slice(alloc, key)?;
    text.push(b'=')?;
    text.extend_from_slice(value)?;
    Ok(text)
}

// An answer as text: a word, a pair, or names.
fn answer_text(alloc: Global, answer: &Answer) -> Result<Vec<u8>, AllocError> {
    match answer {
        Answer::Done => Vec::from_slice(alloc, b"done"),
        Answer::NoDatabase => Vec::from_slice(alloc, b"no database"),
        Answer::NotFound => Vec::from_slice(alloc, b"not found"),
        Answer::KeyExist => Vec::from_slice(alloc, b"key exist"),
        Answer::Rec { key, value } => pair_text(alloc, key.as_slice(), value.as_slice()),
        Answer::Names { names } => names_text(alloc, names.as_slice()),
        _ => Vec::from_slice(alloc, b"another"),
    }
}

// Writes the pairs, each behind a blank.
fn put_pairs(
    alloc: Global,
    text: &mut Vec<u8>,
    pairs: &[(Octets, Octets)],
) -> Result<(), AllocError> {
    for (key, value) in pairs {
        text.push(b' ')?;
        let pair = pair_text(alloc, key.as_slice(), value.as_slice())?;
        text.extend_from_slice(&pair)?;
    }
    Ok(())
}

// The store as text: of each database the name, the pairs and a semicolon.
fn store_text(alloc: Global, store: &Store) -> Result<Vec<u8>, AllocError> {
    let mut text = Vec::new(alloc);
    for d in store.databases.as_slice() {
        text.extend_from_slice(d.name.as_slice())?;
        put_pairs(alloc, &mut text, d.pairs.as_slice())?;
        text.push(b';')?;
    }
    Ok(text)
}

// A database, `s` or `t`, a step, its answer and the store after it.
type Row = (u8, Step, &'static str, &'static str);

// One after the other on a store that is empty at first, worked out by hand.
static RECORDS: [Row; 16] = [
    (b't', Step::Put("a", "1"), "no database", ""),
    (b't', Step::Get("a"), "no database", ""),
    (b't', Step::Delete("a"), "no database", ""),
    (b't', Step::Create, "done", "t;"),
    (b't', Step::Put("b", "2"), "done", "t b=2;"),
    (b't', Step::Put("a", "1"), "done", "t a=1 b=2;"),
    (b't', Step::Put("ab", ""), "done", "t a=1 ab= b=2;"),
    (b't', Step::Put("a", "9"), "done", "t a=9 ab= b=2;"),
    (b't', Step::Get("a"), "a=9", "t a=9 ab= b=2;"),
    (b't', Step::Get("ab"), "ab=", "t a=9 ab= b=2;"),
    (b't', Step::Get("c"), "not found", "t a=9 ab= b=2;"),
    (b't', Step::Delete("ab"), "done", "t a=9 b=2;"),
    (b't', Step::Delete("ab"), "not found", "t a=9 b=2;"),
    (b's', Step::Create, "done", "s;t a=9 b=2;"),
    (b's', Step::Get("a"), "not found", "s;t a=9 b=2;"),
    (b's', Step::Put("a", "5"), "done", "s a=5;t a=9 b=2;"),
];

// The calls on databases, and a put that overwrites nothing.
static DATABASES: [Row; 17] = [
    (b't', Step::List, "names", ""),
    (b't', Step::Remove, "no database", ""),
    (b't', Step::Rename, "no database", ""),
    (b't', Step::Truncate, "no database", ""),
    (b't', Step::PutNo("a", "1"), "no database", ""),
    (b't', Step::Create, "done", "t;"),
    (b't', Step::PutNo("a", "1"), "done", "t a=1;"),
    (b't', Step::PutNo("a", "2"), "key exist", "t a=1;"),
    (b't', Step::Rename, "done", "s a=1;"),
    (b't', Step::Create, "done", "s a=1;t;"),
    (b't', Step::List, "names s t", "s a=1;t;"),
    (b't', Step::Put("b", "2"), "done", "s a=1;t b=2;"),
    (b's', Step::Truncate, "done", "s;t b=2;"),
    (b's', Step::Get("a"), "not found", "s;t b=2;"),
    (b's', Step::Remove, "done", "t b=2;"),
    (b't', Step::Rename, "done", "s b=2;"),
    (b's', Step::Remove, "done", ""),
];

// The calls on a database of sorted duplicates.
static DUPLICATES: [Row; 14] = [
    (b't', Step::CreateDup, "done", "t;"),
    (b't', Step::Put("a", "2"), "done", "t a=2;"),
    (b't', Step::Put("a", "1"), "done", "t a=1 a=2;"),
    (b't', Step::Put("a", "1"), "done", "t a=1 a=2;"),
    (b't', Step::PutNo("a", "3"), "key exist", "t a=1 a=2;"),
    (b't', Step::PutPair("a", "2"), "key exist", "t a=1 a=2;"),
    (b't', Step::PutPair("a", "3"), "done", "t a=1 a=2 a=3;"),
    (b't', Step::PutNo("b", "1"), "done", "t a=1 a=2 a=3 b=1;"),
    (b't', Step::Get("a"), "a=1", "t a=1 a=2 a=3 b=1;"),
    (b't', Step::GetBoth("a", "2"), "a=2", "t a=1 a=2 a=3 b=1;"),
    (
        b't',
        Step::GetBoth("b", "2"),
        "not found",
        "t a=1 a=2 a=3 b=1;",
    ),
    (b't', Step::Delete("a"), "done", "t b=1;"),
    (b't', Step::Rename, "done", "s b=1;"),
    (b's', Step::Put("b", "0"), "done", "s b=0 b=1;"),
];

// The name of one letter.
fn word(alloc: Global, letter: u8) -> Result<Word, AllocError> {
    let name = [letter];
    if Word::is_word(&name) {
        Word::from_slice(alloc, &name)
    } else {
        Err(AllocError)
    }
}

// The call of a row; what is renamed gets the other name.
fn called(alloc: Global, db: u8, step: Step) -> Result<Call, AllocError> {
    let to = if db == b's' { b't' } else { b's' };
    let db = word(alloc, db)?;
    call_of(alloc, db, word(alloc, to)?, step)
}

fn is_answer(alloc: Global, answer: &Answer, text: &str) -> Result<bool, AllocError> {
    let found = answer_text(alloc, answer)?;
    let same = found.as_slice() == text.as_bytes();
    drop(found);
    Ok(same)
}

fn is_store(alloc: Global, store: &Store, text: &str) -> Result<bool, AllocError> {
    let found = store_text(alloc, store)?;
    let same = found.as_slice() == text.as_bytes();
    drop(found);
    Ok(same)
}

fn evaluated(
    alloc: Global,
    store: &Store,
    db: u8,
    step: Step,
) -> Result<(Answer, Store), AllocError> {
    let call = called(alloc, db, step)?;
    let evaluated = eval(alloc, store, &call);
    drop(call);
    evaluated
}

// The store after a row's call, where that and the answer are those of the row.
fn follows(alloc: Global, store: &Store, row: Row) -> Result<Option<Store>, AllocError> {
    let (db, step, answer, after) = row;
    let (found, next) = evaluated(alloc, store, db, step)?;
    let same = is_answer(alloc, &found, answer);
    drop(found);
    Ok(if same? && is_store(alloc, &next, after)? {
        Some(next)
    } else {
        None
    })
}

// The number of the first row that does not follow.
fn first_other(alloc: Global, rows: &[Row]) -> Result<Option<usize>, AllocError> {
    let mut store = Store::new(alloc);
    for (i, row) in rows.iter().enumerate() {
        match follows(alloc, &store, *row)? {
            Some(next) => store = next,
            None => return Ok(Some(i)),
        }
    }
    Ok(None)
}

#[test]
fn evaluates_calls(rt: HostRuntime) {
    assert!(rt; first_other(rt.alloc(), &RECORDS) == Ok(None));
    assert!(rt; first_other(rt.alloc(), &DATABASES) == Ok(None));
    assert!(rt; first_other(rt.alloc(), &DUPLICATES) == Ok(None));
}
