// The bytes of the catalog's records.
use crate::rows::first_wrong;
use db_catalog::{DbKind, DbRecord};
use std::alloc::{AllocError, Global};

// Each kind's record and its bytes, worked out by hand. The first are those in the log of an environment
// whose first database was just created.
static KINDS: [(DbRecord, &[u8]); 4] = [
    (
        DbRecord {
            number: 1,
            kind: DbKind::Plain,
        },
        b"\x00\x00\x00\x01\x00",
    ),
    (
        DbRecord {
            number: 0x0102_0304,
            kind: DbKind::Dup,
        },
        b"\x01\x02\x03\x04\x01",
    ),
    (
        DbRecord {
            number: 2,
            kind: DbKind::SliceIndex {
                primary: 1,
                offset: 65_535,
                len: 4_096,
            },
        },
        b"\
\x00\x00\x00\x02\
\x02\
\x00\x00\x00\x01\
\x00\x00\xff\xff\
\x00\x00\x10\x00",
    ),
    (
        DbRecord {
            number: 0xffff_ffff,
            kind: DbKind::FieldIndex {
                primary: 258,
                number: 3,
                separator: 0x2c,
            },
        },
        b"\
\xff\xff\xff\xff\
\x03\
\x00\x00\x01\x02\
\x00\x00\x00\x03\
\x2c",
    ),
];

fn is_written(alloc: Global, record: &DbRecord, bytes: &[u8]) -> Result<bool, AllocError> {
    let written = record.to_bytes(alloc)?;
    let same = written.as_slice() == bytes;
    drop(written);
    Ok(same)
}

#[test]
fn writes_and_reads_each_kind(rt: HostRuntime) {
    let wrong = first_wrong(&KINDS, |(record, bytes)| {
        Ok::<bool, AllocError>(
            is_written(rt.alloc(), record, bytes)? && DbRecord::from_bytes(bytes) == Some(*record),
        )
    });
    assert_eq!(rt; wrong, Ok(None));
}

// A byte more or less, a kind that is none, and a slice outside its limits.
static WRONG: [&[u8]; 10] = [
    b"",
    b"\x00\x00\x00\x01",
    b"\
\x00\x00\x00\x01\
\x00\
\x00",
    b"\
\x00\x00\x00\x01\
\x01\
\x00",
    b"\x00\x00\x00\x01\x04",
    b"\
\x00\x00\x00\x02\
\x02\
\x00\x00\x00\x01\
\x00\x01\x00\x00\
\x00\x00\x10\x00",
    b"\
\x00\x00\x00\x02\
\x02\
\x00\x00\x00\x01\
\x00\x00\xff\xff\
\x00\x00\x00\x00",
    b"\
\x00\x00\x00\x02\
\x02\
\x00\x00\x00\x01\
\x00\x00\xff\xff\
\x00\x00\x10\x01",
    b"\
\x00\x00\x00\x02\
\x02\
\x00\x00\x00\x01\
\x00\x00\xff\xff\
\x00\x00\x10\x00\
\x00",
    b"\
\x00\x00\x00\x02\
\x03\
\x00\x00\x00\x01\
\x00\x00\x00\x03",
];

#[test]
fn reads_nothing_else(rt: HostRuntime) {
    let wrong = first_wrong(
        &WRONG,
        |bytes| Ok::<bool, AllocError>(DbRecord::from_bytes(bytes).is_none()),
    );
    assert_eq!(rt; wrong, Ok(None));
}
