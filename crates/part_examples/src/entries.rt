// The entries of a log's first file, read and written.
ghost use Rattle.std.specs.Prelude.{◌≤◌, length, IfOk};
ghost use Rattle.log_entry.specs.Body.{IsEntry};

use crate::rows::first_wrong;
use crate::samples::first;
use byteorder::{BigEndian, ByteOrder};
use je_bytes::adler32;
use je_order::{Name, Octets, TxnId};
use log_entry::{
    Decoded, Entry, Torn, decode, decode_at, encode_onto, one_encoding, prefixes_are_encodings,
    size,
};
use std::alloc::{AllocError, Global};

fn put(alloc: Global, txn: u64, db: u32, key: &[u8], value: &[u8]) -> Result<Entry, AllocError>
    requires key { length key.now ≤ 4096 }
    requires value { length value.now ≤ 65536 }
    ensures { IfOk result (λ entry. IsEntry entry) }
{
    Ok(Entry::Put {
        txn: TxnId(txn),
        db,
        name: Name {
            key: Octets::from_slice(alloc, key)?,
            dup: Octets::new(alloc),
        },
        value: Octets::from_slice(alloc, value)?,
    })
}

// The entries of the file: the number of each, its offset, its prev field and its length.
static PLACES: [(usize, usize, u32, usize); 5] = [
    (0, 0, 0, 26),
    (1, 26, 0, 36),
    (2, 62, 26, 22),
    (3, 84, 62, 32),
    (4, 116, 84, 22),
];

// The entries of the file, in order.
fn entry_of(alloc: Global, number: usize) -> Result<Entry, AllocError>
    ensures { IfOk result (λ entry. IsEntry entry) }
{
    match number {
        0 => Ok(Entry::FileHeader {
            version: 1,
            file: 0,
        }),
        1 => put(alloc, 1, 0, b"t", b"\x00\x00\x00\x01\x00"),
        2 => Ok(Entry::Commit { txn: TxnId(1) }),
        3 => put(alloc, 2, 1, b"a", b"1"),
        _ => Ok(Entry::Commit { txn: TxnId(2) }),
    }
}

// Puts the entry of this number at the end, and answers how many bytes it is to take.
fn put_onto(
    alloc: Global,
    bytes: &mut Vec<u8>,
    number: usize,
    prev: u32,
) -> Result<usize, AllocError> {
    let entry = entry_of(alloc, number)?;
    let len = size(&entry) as usize;
    let done = encode_onto(&entry, prev, bytes);
    drop(entry);
    done?;
    Ok(len)
}

// Puts what stands at an offset of the file at the end, and answers its prev field and its length; none
// where no entry stands there.
fn read_onto(
    alloc: Global,
    bytes: &mut Vec<u8>,
    at: usize,
) -> Result<Option<(u32, usize)>, AllocError>
    requires { at ≤ 138 }
{
    match decode_at(alloc, first(), at)? {
        Decoded::Whole { entry, prev, len } => {
            let done = encode_onto(&entry, prev, bytes);
            drop(entry);
            done?;
            Ok(Some((prev, len)))
        }
        Decoded::Torn(_) => Ok(None),
    }
}

#[test]
fn decodes_a_file(rt: HostRuntime) {
    let mut bytes = Vec::new(rt.alloc());
    let wrong = first_wrong(&PLACES, |&(_, at, prev, len)| {
        Ok::<bool, AllocError>(
            at < 138 && read_onto(rt.alloc(), &mut bytes, at)? == Some((prev, len)),
        )
    });
    assert_eq!(rt; wrong, Ok(None));
    assert!(rt; bytes.as_slice() == first().as_slice());
}

#[test]
fn encodes_a_file(rt: HostRuntime) {
    let mut bytes = Vec::new(rt.alloc());
    let wrong = first_wrong(&PLACES, |&(number, _, prev, len)| {
        Ok::<bool, AllocError>(put_onto(rt.alloc(), &mut bytes, number, prev)? == len)
    });
    assert_eq!(rt; wrong, Ok(None));
    assert!(rt; bytes.as_slice() == first().as_slice());
    one_encoding();
    prefixes_are_encodings();
}

// The last entry of the file with one byte changed and, where `signed`, the checksum made anew.
fn changed(at: usize, to: u8, signed: bool) -> [u8; 22] {
    let mut bytes = [0; 22];
    bytes.copy_from_slice(&first()[116..]);
    if at < 22 {
        bytes[at] = to;
    }
    if signed {
        let sum = adler32(&bytes[4..]);
        BigEndian::write_u32(&mut bytes, sum);
    }
    bytes
}

// Why the bytes begin with no whole entry; None where they do.
pub fn torn(alloc: Global, bytes: &[u8]) -> Result<Option<Torn>, AllocError> {
    match decode(alloc, bytes)? {
        Decoded::Torn(torn) => Ok(Some(torn)),
        Decoded::Whole { entry, .. } => {
            drop(entry);
            Ok(None)
        }
    }
}

// How many bytes there are of that, which byte is changed to what, whether the checksum is made anew, and
// why it is then no whole entry.
static CHANGES: [(usize, usize, u8, bool, Torn); 11] = [
    (0, 22, 0, false, Torn::Short),
    (13, 22, 0, false, Torn::Short),
    (14, 22, 0, false, Torn::Short),
    (21, 22, 0, false, Torn::Short),
    (22, 13, 9, false, Torn::Short),
    (22, 3, 0, false, Torn::BadSum),
    (22, 21, 3, false, Torn::BadSum),
    (22, 4, 6, true, Torn::BadKind),
    (22, 5, 1, true, Torn::BadKind),
    (22, 4, 3, true, Torn::BadKind),
    (22, 13, 7, true, Torn::BadSum),
];

#[test]
fn tells_why_none_is_whole(rt: HostRuntime) {
    let wrong = first_wrong(&CHANGES, |&(len, at, to, signed, why)| {
        let bytes = changed(at, to, signed);
        Ok::<bool, AllocError>(len < 23 && torn(rt.alloc(), &bytes[..len])? == Some(why))
    });
    assert_eq!(rt; wrong, Ok(None));
}
