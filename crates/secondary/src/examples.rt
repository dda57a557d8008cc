// Which keys indexes have for data, and what changes in them.
use crate::{extract, index_changes, key_in};
use je_order::KEY_LIMIT;
use std::alloc::{AllocError, Global};
use store_model::{Extract, RecordChange};

type Bytes = &'static [u8];

/// A field's number or a slice's place, data, and the key that it has.
#[derive(Clone, Copy)]
enum Row {
    Slice(u32, u32, Bytes, Option<Bytes>),
    Field(u32, Bytes, Option<Bytes>),
}

static KEYS: [Row; 14] = [
    Row::Slice(0, 2, b"abcd", Some(b"ab")),
    Row::Slice(2, 2, b"abcd", Some(b"cd")),
    Row::Slice(3, 2, b"abcd", None),
    Row::Slice(5, 1, b"abcd", None),
    Row::Slice(0, 1, b"", None),
    Row::Field(0, b"red,green,blue", Some(b"red")),
    Row::Field(2, b"red,green,blue", Some(b"blue")),
    Row::Field(3, b"red,green,blue", None),
    Row::Field(1, b"red,,blue", Some(b"")),
    Row::Field(0, b"", Some(b"")),
    Row::Field(1, b"", None),
    Row::Field(0, b",red,", Some(b"")),
    Row::Field(1, b",red,", Some(b"red")),
    Row::Field(2, b",red,", Some(b"")),
];

fn field(number: u32) -> Extract {
    Extract::Field {
        number,
        separator: b',',
    }
}

fn is_key(key: Option<&[u8]>, want: Option<&[u8]>) -> bool {
    match (key, want) {
        (Some(key), Some(want)) => key == want,
        (None, None) => true,
        _ => false,
    }
}

// Whether data has the key that is wanted, borrowed and as bytes of its own.
fn has(alloc: Global, by: &Extract, data: &[u8], want: Option<&[u8]>) -> Result<bool, AllocError> {
    let own = extract(alloc, by, data)?;
    let same = match &own {
        Some(key) => is_key(Some(key.as_slice()), want),
        None => is_key(None, want),
    };
    drop(own);
    Ok(same && is_key(key_in(by, data), want))
}

fn has_key(alloc: Global, row: Row) -> Result<bool, AllocError> {
    match row {
        Row::Slice(offset, length, data, want) => {
            has(alloc, &Extract::ByteSlice { offset, length }, data, want)
        }
        Row::Field(number, data, want) => has(alloc, &field(number), data, want),
    }
}

// The first byte string is cut to the length of a key.
fn is_cut(alloc: Global) -> Result<bool, AllocError> {
    let mut data = Vec::new(alloc);
    for _ in 0..5_000 {
        data.push(7u8)?;
    }
    match key_in(&field(0), data.as_slice()) {
        Some(key) => Ok(key.len() == KEY_LIMIT),
        None => Ok(false),
    }
}

fn is_change(change: &RecordChange, sets: bool, key: &[u8]) -> bool {
    match change {
        RecordChange::Set { at, .. } => sets && at.key.as_slice() == key,
        RecordChange::Unset { at } => !sets && at.key.as_slice() == key,
    }
}

// A record whose data is other: its pair moves.
fn moves(alloc: Global) -> Result<bool, AllocError> {
    let changes = index_changes(alloc, &field(1), b"k", Some(b"1,red"), Some(b"1,green"))?;
    let right = match changes.as_slice() {
        [gone, come] => is_change(gone, false, b"red") && is_change(come, true, b"green"),
        _ => false,
    };
    drop(changes);
    Ok(right)
}

// Data with the same key, or with none before and after.
fn stays(alloc: Global, old: Option<&[u8]>, new: Option<&[u8]>) -> Result<bool, AllocError> {
    let changes = index_changes(alloc, &field(1), b"k", old, new)?;
    let none = changes.is_empty();
    drop(changes);
    Ok(none)
}

#[test]
fn keys_are_slices_and_fields(rt: HostRuntime) -> Result<(), AllocError> {
    for row in &KEYS {
        assert!(&rt; has_key(rt.alloc(), *row)?);
    }
    assert!(&rt; is_cut(rt.alloc())?);
    Ok(())
}

#[test]
fn a_pair_moves_with_its_record(rt: HostRuntime) -> Result<(), AllocError> {
    assert!(&rt; moves(rt.alloc())?);
    assert!(&rt; stays(rt.alloc(), Some(b"1,red"), Some(b"2,red"))?);
    assert!(&rt; stays(rt.alloc(), None, Some(b"1"))?);
    Ok(())
}
