// Byte order, and each kind of value.
use crate::rows::first_wrong;
use je_order::{Bound, List, Name, Octets, TxnId, Word, cmp_bytes, cmp_name, copy_of};
use std::alloc::{AllocError, Global};
use std::cmp::Ordering;

// Unsigned bytes, a proper prefix first: the examples of the order in the Getting Started Guide.
static ORDERED: [(&[u8], &[u8], Ordering); 5] = [
    (b"", b"", Ordering::Equal),
    (b"", b"a", Ordering::Less),
    (b"ab", b"b", Ordering::Less),
    (b"abc", b"ab", Ordering::Greater),
    (b"\xff", b"\x01\x01", Ordering::Greater),
];

#[test]
fn orders_bytes(rt: HostRuntime) {
    let wrong = first_wrong(
        &ORDERED,
        |&(a, b, want)| Ok::<bool, AllocError>(cmp_bytes(a, b) == want),
    );
    assert_eq!(rt; wrong, Ok(None));
}

fn keys(alloc: Global) -> Result<Octets, AllocError> {
    Octets::from_slice(alloc, b"keys")
}

fn name(alloc: Global) -> Result<Name, AllocError> {
    let key = keys(alloc)?;
    let dup = Octets::from_vec(Vec::new(alloc));
    Ok(Name { key, dup })
}

// Whether a copy of the name is the same, and what the name's parts are is so.
fn is_name(name: &Name) -> Result<bool, AllocError> {
    let copy = copy_of(name)?;
    let same = copy == *name && cmp_name(&copy, name) == Ordering::Equal;
    drop(copy);
    Ok(same && name.dup.is_empty() && name.key.len() == 4)
}

fn put_bounds(bounds: &mut List<Bound>, name: Name) -> Result<(), AllocError> {
    bounds.push(Bound::At(name))?;
    bounds.push(Bound::End)?;
    Ok(())
}

// Whether a copy of both bounds is the same.
fn are_bounds(bounds: &List<Bound>) -> Result<bool, AllocError> {
    let again = copy_of(bounds)?;
    let same = again == *bounds && !again.is_empty() && again.len() == 2;
    drop(again);
    Ok(same)
}

fn makes_whole(alloc: Global) -> Result<bool, AllocError> {
    let name = name(alloc)?;
    let whole = is_name(&name);
    drop(name);
    whole
}

fn makes_both(alloc: Global) -> Result<bool, AllocError> {
    let name = name(alloc)?;
    let mut bounds = List::from_vec(List::new(alloc).into_vec());
    let put = put_bounds(&mut bounds, name);
    let whole = are_bounds(&bounds);
    drop(bounds);
    put?;
    whole
}

#[test]
fn makes_names_and_bounds(rt: HostRuntime) {
    assert!(rt; makes_whole(rt.alloc()) == Ok(true));
    assert!(rt; makes_both(rt.alloc()) == Ok(true));
    assert!(rt; TxnId(1) < TxnId(2));
}

static NOT_WORDS: [&[u8]; 4] = [b"", b"T", b"a b", &[b'a'; 65]];

// Whether a text is a word, and a copy of that word the same.
fn is_copied(alloc: Global, text: &[u8]) -> Result<bool, AllocError> {
    if !Word::is_word(text) {
        return Ok(false);
    }
    let word = Word::from_slice(alloc, text)?;
    let same = word.as_slice() == text && word.len() == text.len() && copy_of(&word)? == word;
    drop(word);
    Ok(same)
}

#[test]
fn takes_names_of_databases(rt: HostRuntime) {
    assert!(rt; Word::is_word(b"t_9"));
    let wrong = first_wrong(
        &NOT_WORDS,
        |text| Ok::<bool, AllocError>(!Word::is_word(text)),
    );
    assert_eq!(rt; wrong, Ok(None));
    assert!(rt; is_copied(rt.alloc(), b"people") == Ok(true));
}
