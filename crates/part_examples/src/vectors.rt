// An entry of each kind that the first file does not have, written out by hand, one field a line. The
// checksums are those of Python's `zlib.adler32` over all that follows them.
ghost use Rattle.log_entry.specs.Body.{IsEntry};

use crate::entries::torn;
use crate::rows::first_wrong;
use Fields::{Bin, BinDelta, CkptEnd, CkptStart, Delete, FileSummary, In, Migrated};
use byteorder::{BigEndian, ByteOrder};
use je_bytes::adler32;
use je_lsn::Lsn;
use je_order::Name;
use log_entry::{ChildSlot, Decoded, Entry, FileUsage, RecordSlot, Root, Torn, decode, encode};
use std::alloc::{AllocError, Global};

// A key and a dup.
type Key = (&'static [u8], &'static [u8]);

// The fields of an entry, in its order. An LSN is a number.
#[derive(Clone, Copy)]
enum Fields {
    Delete(u64, u32, Key),
    Migrated(u32, Key, &'static [u8]),
    In(u32, u64, u8, &'static [(Key, u64)]),
    Bin(u32, u64, &'static [(Key, Option<u64>)]),
    BinDelta(u32, u64, u64, &'static [(Key, Option<u64>)]),
    CkptStart(u64),
    CkptEnd(u64, u64, u64, u64, u64, u32, Option<u64>, &'static [(u32, u64)]),
    FileSummary(&'static [(u32, u64, u64)]),
}

// What an entry is, its prev field, and its encoding.
static VECTORS: [(Fields, u32, &[u8]); 9] = [
    (
        Delete(7, 3, (b"k", b"dd")),
        5,
        b"\
\x06\x23\x01\x5c\
\x03\
\x00\
\x00\x00\x00\x05\
\x00\x00\x00\x13\
\x00\x00\x00\x00\x00\x00\x00\x07\
\x00\x00\x00\x03\
\x00\x01\
k\
\x00\x02\
dd",
    ),
    (
        Migrated(3, (b"a", b""), b"xyz"),
        26,
        b"\
\x08\x00\x01\xfb\
\x04\
\x00\
\x00\x00\x00\x1a\
\x00\x00\x00\x0c\
\x00\x00\x00\x03\x00\x01\x61\x00\x00\x78\x79\x7a",
    ),
    (
        In(
            3,
            9,
            2,
            &[((b"", b""), 0x100), ((b"m", b"q"), 0x1_0000_001a)],
        ),
        62,
        b"\
\x1e\xc1\x01\x7b\
\x07\
\x00\
\x00\x00\x00\x3e\
\x00\x00\x00\x29\
\x00\x00\x00\x03\
\x00\x00\x00\x00\x00\x00\x00\x09\
\x02\
\x00\x02\
\x00\x00\
\x00\x00\
\x00\x00\x00\x00\x00\x00\x01\x00\
\x00\x01\
m\
\x00\x01\
q\
\x00\x00\x00\x01\x00\x00\x00\x1a",
    ),
    (
        Bin(
            3,
            2,
            &[
                ((b"a", b""), Some(84)),
                ((b"b", b""), None),
                ((b"b", b"c"), Some(0x2_0000_001a)),
            ],
        ),
        98,
        b"\
\x55\xad\x02\xa9\
\x08\
\x00\
\x00\x00\x00\x62\
\x00\x00\x00\x39\
\x00\x00\x00\x03\
\x00\x00\x00\x00\x00\x00\x00\x02\
\x00\x03\
\x00\x01\
a\
\x00\x00\
\x00\
\x00\x00\x00\x00\x00\x00\x00\x54\
\x00\x01\
b\
\x00\x00\
\x01\
\x00\x00\x00\x00\x00\x00\x00\x00\
\x00\x01\
b\
\x00\x01\
c\
\x00\
\x00\x00\x00\x02\x00\x00\x00\x1a",
    ),
    (
        BinDelta(3, 2, 98, &[((b"b", b""), None)]),
        120,
        b"\
\x26\x0c\x01\x72\
\x09\
\x00\
\x00\x00\x00\x78\
\x00\x00\x00\x24\
\x00\x00\x00\x03\
\x00\x00\x00\x00\x00\x00\x00\x02\
\x00\x00\x00\x00\x00\x00\x00\x62\
\x00\x01\
\x00\x01\
b\
\x00\x00\
\x01\
\x00\x00\x00\x00\x00\x00\x00\x00",
    ),
    (
        CkptStart(5),
        200,
        b"\
\x0b\x3b\x00\xe0\
\x0a\
\x00\
\x00\x00\x00\xc8\
\x00\x00\x00\x08\
\x00\x00\x00\x00\x00\x00\x00\x05",
    ),
    (
        CkptEnd(5, 200, 26, 7, 9, 3, None, &[(0, 300), (3, 400)]),
        222,
        b"\
\xa2\x97\x02\xf5\
\x0b\
\x00\
\x00\x00\x00\xde\
\x00\x00\x00\x4e\
\x00\x00\x00\x00\x00\x00\x00\x05\
\x00\x00\x00\x00\x00\x00\x00\xc8\
\x00\x00\x00\x00\x00\x00\x00\x1a\
\x00\x00\x00\x00\x00\x00\x00\x07\
\x00\x00\x00\x00\x00\x00\x00\x09\
\x00\x00\x00\x03\
\x00\x00\x00\x00\x00\x00\x00\x00\
\x00\x02\
\x00\x00\x00\x00\
\x00\x00\x00\x00\x00\x00\x01\x2c\
\x00\x00\x00\x03\
\x00\x00\x00\x00\x00\x00\x01\x90",
    ),
    (
        FileSummary(&[(0, 4_096, 100), (3, 5_000, 0)]),
        26,
        b"\
\x1f\x93\x01\x67\
\x0c\
\x00\
\x00\x00\x00\x1a\
\x00\x00\x00\x2c\
\x00\x00\x00\x02\
\x00\x00\x00\x00\
\x00\x00\x00\x00\x00\x00\x10\x00\
\x00\x00\x00\x00\x00\x00\x00\x64\
\x00\x00\x00\x03\
\x00\x00\x00\x00\x00\x00\x13\x88\
\x00\x00\x00\x00\x00\x00\x00\x00",
    ),
    (
        CkptEnd(5, 200, 26, 7, 9, 3, Some(0x1_0000_0040), &[]),
        222,
        b"\
\x66\x5d\x02\x5b\
\x0b\
\x00\
\x00\x00\x00\xde\
\x00\x00\x00\x36\
\x00\x00\x00\x00\x00\x00\x00\x05\
\x00\x00\x00\x00\x00\x00\x00\xc8\
\x00\x00\x00\x00\x00\x00\x00\x1a\
\x00\x00\x00\x00\x00\x00\x00\x07\
\x00\x00\x00\x00\x00\x00\x00\x09\
\x00\x00\x00\x03\
\x00\x00\x00\x01\x00\x00\x00\x40\
\x00\x00",
    ),
];

fn is_name(name: &Name, key: Key) -> bool {
    name.key.as_slice() == key.0 && name.dup.as_slice() == key.1
}

fn are_children(slots: &[ChildSlot], rows: &[(Key, u64)]) -> bool {
    let mut same = slots.len() == rows.len();
    for (slot, (key, child)) in slots.iter().zip(rows) {
        same = same && is_name(&slot.name, *key) && slot.child.as_u64() == *child;
    }
    same
}

fn is_place(lsn: Option<Lsn>, want: Option<u64>) -> bool {
    match (lsn, want) {
        (Some(lsn), Some(number)) => lsn.as_u64() == number,
        (None, None) => true,
        _ => false,
    }
}

// Records by key and dup, and where each was put; none where it was deleted.
fn are_records(slots: &[RecordSlot], rows: &[(Key, Option<u64>)]) -> bool {
    let mut same = slots.len() == rows.len();
    for (slot, (key, lsn)) in slots.iter().zip(rows) {
        same = same && is_name(&slot.name, *key) && is_place(slot.lsn, *lsn);
    }
    same
}

fn are_roots(roots: &[Root], rows: &[(u32, u64)]) -> bool {
    let mut same = roots.len() == rows.len();
    for (root, (db, image)) in roots.iter().zip(rows) {
        same = same && root.db == *db && root.image.as_u64() == *image;
    }
    same
}

fn are_usages(files: &[FileUsage], rows: &[(u32, u64, u64)]) -> bool {
    let mut same = files.len() == rows.len();
    for (usage, row) in files.iter().zip(rows) {
        same = same && (usage.file.0, usage.total, usage.live) == *row;
    }
    same
}

// Whether an image, or the start of a checkpoint, has these fields.
fn is_image(entry: &Entry, fields: Fields) -> bool {
    match (entry, fields) {
        (
            Entry::In {
                db,
                node,
                level,
                slots,
            },
            In(of, number, at, rows),
        ) => { (*db, *node, *level) == (of, number, at) && are_children(slots.as_slice(), rows) }
        (Entry::Bin { db, node, slots }, Bin(of, number, rows)) => {
            (*db, *node) == (of, number) && are_records(slots.as_slice(), rows)
        }
        (
            Entry::BinDelta {
                db,
                node,
                full,
                slots,
            },
            BinDelta(of, number, image, rows),
        ) => {
            let same = (*db, *node, full.as_u64()) == (of, number, image);
            same && are_records(slots.as_slice(), rows)
        }
        _ => false,
    }
}

// Whether the end of a checkpoint has these fields.
fn is_end(entry: &Entry, fields: Fields) -> bool {
    let CkptEnd(count, begun, from, txn, of, base, usage, rows) = fields else {
        return false;
    };
    let Entry::CkptEnd {
        number,
        start,
        redo,
        last_txn,
        last_node,
        last_db,
        summary,
        roots,
    } = entry
    else {
        return false;
    };
    let same = (*number, start.as_u64(), redo.as_u64()) == (count, begun, from);
    let last_job = (last_txn.0, *last_node, *last_db) == (txn, of, base);
    same && last_job && is_place(*summary, usage) && are_roots(roots.as_slice(), rows)
}

fn is_entry(entry: &Entry, fields: Fields) -> bool {
    match (entry, fields) {
        (Entry::Delete { txn, db, name }, Delete(by, of, key)) => {
            (txn.0, *db) == (by, of) && is_name(name, key)
        }
        (Entry::Migrated { db, name, value }, Migrated(of, key, bytes)) => {
            *db == of && is_name(name, key) && value.as_slice() == bytes
        }
        (Entry::CkptStart { number }, CkptStart(count)) => *number == count,
        (Entry::FileSummary { files }, FileSummary(rows)) => are_usages(files.as_slice(), rows),
        (Entry::CkptEnd { .. }, _) => is_end(entry, fields),
        _ => is_image(entry, fields),
    }
}

fn is_encoded(alloc: Global, entry: &Entry, prev: u32, bytes: &[u8]) -> Result<bool, AllocError>
    requires { IsEntry entry.now }
{
    let encoding = encode(alloc, entry, prev)?;
    let same = encoding.as_slice() == bytes;
    drop(encoding);
    Ok(same)
}

// Whether the bytes are that entry with this prev field, read and written.
fn encodes(alloc: Global, bytes: &[u8], fields: Fields, want: u32) -> Result<bool, AllocError> {
    match decode(alloc, bytes)? {
        Decoded::Whole { entry, prev, len } => {
            let same = is_entry(&entry, fields) && (prev, len) == (want, bytes.len());
            let encoded = is_encoded(alloc, &entry, prev, bytes);
            drop(entry);
            Ok(same && encoded?)
        }
        Decoded::Torn(_) => Ok(false),
    }
}

#[test]
fn encodes_each_kind(rt: HostRuntime) {
    let wrong = first_wrong(&VECTORS, |&(fields, prev, bytes)| {
        encodes(rt.alloc(), bytes, fields, prev)
    });
    assert_eq!(rt; wrong, Ok(None));
}

// A body with a header that has the right length and checksum.
fn framed(alloc: Global, kind: u8, body: &[u8]) -> Result<Vec<u8>, AllocError> {
    let len = body.len().min(255) as u8;
    let header = [0, 0, 0, 0, kind, 0, 0, 0, 0, 0, 0, 0, 0, len];
    let mut bytes = Vec::from_slice(alloc, &header)?;
    bytes.extend_from_slice(body)?;
    let sum = adler32(&bytes[4..]);
    BigEndian::write_u32(&mut bytes, sum);
    Ok(bytes)
}

fn why_torn(alloc: Global, kind: u8, body: &[u8]) -> Result<Option<Torn>, AllocError> {
    let bytes = framed(alloc, kind, body)?;
    let why = torn(alloc, &bytes);
    drop(bytes);
    why
}

// A body that a field puts out of its kind's limits: of an IN its level or that it has no child; of a BIN
// a name that is not above the one before it, a state, or an LSN where the record was deleted; one byte
// more than the fields; a database or a file that is not above the one before it.
static BODIES: [(u8, &[u8]); 11] = [
    (
        7,
        b"\
\x00\x00\x00\x03\
\x00\x00\x00\x00\x00\x00\x00\x09\
\x01\
\x00\x01\
\x00\x00\
\x00\x00\
\x00\x00\x00\x00\x00\x00\x01\x00",
    ),
    (
        7,
        b"\
\x00\x00\x00\x03\
\x00\x00\x00\x00\x00\x00\x00\x09\
\x41\
\x00\x01\
\x00\x00\
\x00\x00\
\x00\x00\x00\x00\x00\x00\x01\x00",
    ),
    (
        7,
        b"\
\x00\x00\x00\x03\
\x00\x00\x00\x00\x00\x00\x00\x09\
\x02\
\x00\x00",
    ),
    (
        8,
        b"\
\x00\x00\x00\x03\
\x00\x00\x00\x00\x00\x00\x00\x02\
\x00\x02\
\x00\x01\
a\
\x00\x00\
\x00\
\x00\x00\x00\x00\x00\x00\x00\x54\
\x00\x01\
a\
\x00\x00\
\x00\
\x00\x00\x00\x00\x00\x00\x00\x54",
    ),
    (
        8,
        b"\
\x00\x00\x00\x03\
\x00\x00\x00\x00\x00\x00\x00\x02\
\x00\x02\
\x00\x01\
b\
\x00\x00\
\x00\
\x00\x00\x00\x00\x00\x00\x00\x54\
\x00\x01\
a\
\x00\x00\
\x00\
\x00\x00\x00\x00\x00\x00\x00\x54",
    ),
    (
        8,
        b"\
\x00\x00\x00\x03\
\x00\x00\x00\x00\x00\x00\x00\x02\
\x00\x01\
\x00\x01\
a\
\x00\x00\
\x02\
\x00\x00\x00\x00\x00\x00\x00\x00",
    ),
    (
        8,
        b"\
\x00\x00\x00\x03\
\x00\x00\x00\x00\x00\x00\x00\x02\
\x00\x01\
\x00\x01\
a\
\x00\x00\
\x01\
\x00\x00\x00\x00\x00\x00\x00\x54",
    ),
    (
        8,
        b"\
\x00\x00\x00\x03\
\x00\x00\x00\x00\x00\x00\x00\x02\
\x00\x00\
\x00",
    ),
    (
        9,
        b"\
\x00\x00\x00\x03\
\x00\x00\x00\x00\x00\x00\x00\x02\
\x00\x00\x00\x00\x00\x00\x00\x62\
\x00\x81",
    ),
    (
        11,
        b"\
\x00\x00\x00\x00\x00\x00\x00\x05\
\x00\x00\x00\x00\x00\x00\x00\xc8\
\x00\x00\x00\x00\x00\x00\x00\x1a\
\x00\x00\x00\x00\x00\x00\x00\x07\
\x00\x00\x00\x00\x00\x00\x00\x09\
\x00\x00\x00\x03\
\x00\x00\x00\x00\x00\x00\x00\x00\
\x00\x02\
\x00\x00\x00\x03\
\x00\x00\x00\x00\x00\x00\x01\x2c\
\x00\x00\x00\x03\
\x00\x00\x00\x00\x00\x00\x01\x90",
    ),
    (
        12,
        b"\
\x00\x00\x00\x02\
\x00\x00\x00\x03\
\x00\x00\x00\x00\x00\x00\x10\x00\
\x00\x00\x00\x00\x00\x00\x00\x64\
\x00\x00\x00\x02\
\x00\x00\x00\x00\x00\x00\x13\x88\
\x00\x00\x00\x00\x00\x00\x00\x00",
    ),
];

#[test]
fn finds_bodies_of_no_kind(rt: HostRuntime) {
    let wrong = first_wrong(&BODIES, |&(kind, body)| {
        Ok::<bool, AllocError>(why_torn(rt.alloc(), kind, body)? == Some(Torn::BadKind))
    });
    assert_eq!(rt; wrong, Ok(None));
}
