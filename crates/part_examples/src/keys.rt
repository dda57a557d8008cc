// Names sorted by the heads of their keys.
use crate::rows::first_wrong;
use je_order::{Name, Octets};
use record_map::SortKey;
use std::alloc::{AllocError, Global};
use std::cmp::Ordering;

fn plain(alloc: Global, key: &[u8]) -> Result<Name, AllocError> {
    Ok(Name {
        key: Octets::from_slice(alloc, key)?,
        dup: Octets::new(alloc),
    })
}

// How a key compares with that of another name, and whether they are equal.
fn compared_with(
    alloc: Global,
    first: &SortKey,
    key: &[u8],
) -> Result<(Ordering, bool), AllocError> {
    let second = SortKey::new(alloc, plain(alloc, key)?)?;
    let compared = (first.cmp(&second), *first == second);
    drop(second);
    Ok(compared)
}

fn compared(alloc: Global, a: &[u8], b: &[u8]) -> Result<(Ordering, bool), AllocError> {
    let first = SortKey::new(alloc, plain(alloc, a)?)?;
    let compared = compared_with(alloc, &first, b);
    drop(first);
    compared
}

// Keys that are held whole, of one or of different lengths; one of 22 bytes, the most that are, and a longer
// one that it begins; and longer ones that differ in their last byte.
static ROWS: [(&[u8], &[u8], Ordering); 7] = [
    (b"\x01\xff", b"\xff", Ordering::Less),
    (b"ab", b"ab\0", Ordering::Less),
    (b"", b"\0", Ordering::Less),
    (b"abcdefghi", b"abcdefghi", Ordering::Equal),
    (
        b"twenty-two bytes of it",
        b"twenty-two bytes of it.",
        Ordering::Less,
    ),
    (
        b"customer:00000000000002",
        b"customer:00000000000001",
        Ordering::Greater,
    ),
    (
        b"customer:00000000000001",
        b"customer:00000000000001",
        Ordering::Equal,
    ),
];

#[test]
fn sorts_as_names(rt: HostRuntime) {
    let wrong = first_wrong(&ROWS, |&(a, b, want)| {
        Ok::<bool, AllocError>(compared(rt.alloc(), a, b)? == (want, want.is_eq()))
    });
    assert_eq!(rt; wrong, Ok(None));
}

// Whether the name of a key comes back.
fn comes_back(alloc: Global, key: &[u8]) -> Result<bool, AllocError> {
    let held = SortKey::plain(alloc, key)?;
    let name = held.to_name(alloc);
    drop(held);
    let name = name?;
    let same = name.key.as_slice() == key && name.dup.is_empty();
    drop(name);
    Ok(same)
}

// A key that is held whole, and a longer one.
#[test]
fn gives_the_name_back(rt: HostRuntime) {
    assert!(rt; comes_back(rt.alloc(), b"short") == Ok(true));
    assert!(rt; comes_back(rt.alloc(), b"customer:00000000000001") == Ok(true));
}
