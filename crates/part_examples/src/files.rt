// Where the run of a file ends, and what a first entry says of a file.
use crate::rows::first_wrong;
use crate::samples::first;
use Bytes::{Alone, Cut, With};
use je_lsn::FileNo;
use log_entry::Entry;
use log_file::{FileScan, scan_bytes};
use std::alloc::{AllocError, Global};

// What a file's bytes are. Of a run: how many entries it has, the offset of the last one, and its end.
#[derive(Clone, Copy, PartialEq, Eq)]
enum Told {
    Run(usize, u32, u32),
    VersionUnknown(u32),
    Damaged,
}

fn tell(alloc: Global, bytes: &[u8], f: u32) -> Result<Told, AllocError> {
    match scan_bytes(alloc, bytes, FileNo(f))? {
        FileScan::Prefix(run) => Ok(Told::Run(run.entries.len(), run.last, run.end)),
        FileScan::VersionUnknown { version } => Ok(Told::VersionUnknown(version)),
        FileScan::Damaged => Ok(Told::Damaged),
    }
}

// The first file cut to a length, or with more bytes at its end, or other bytes as a file with this number.
#[derive(Clone, Copy)]
enum Bytes {
    Cut(usize),
    With(&'static [u8]),
    Alone(&'static [u8], u32),
}

// What the first file is with more bytes at its end.
fn tell_with(alloc: Global, more: &[u8]) -> Result<Told, AllocError> {
    let mut bytes = Vec::from_slice(alloc, first())?;
    let extended = bytes.extend_from_slice(more);
    let told = tell(alloc, &bytes, 0);
    drop(bytes);
    extended?;
    told
}

fn tell_of(alloc: Global, bytes: Bytes) -> Result<Told, AllocError> {
    match bytes {
        Cut(len) => tell(alloc, &first()[..len.min(138)], 0),
        With(more) => tell_with(alloc, more),
        Alone(bytes, f) => tell(alloc, bytes, f),
    }
}

const OF_FILE_7: &[u8] = b"\
\x0c\xba\x01\x38\
\x01\
\x00\
\x00\x00\x00\x00\
\x00\x00\x00\x0c\
\x4a\x45\x4c\x47\
\x00\x00\x00\x01\
\x00\x00\x00\x07";

// A run ends where the file is cut. It ends before what does not go on with it: behind the file stand a
// commit that names the last entry, one that names the entry before that, a header that names the last
// entry, and zeros. Then there are first entries: a header of file 7, one of version 2, one with prev 5, a
// commit, and a header with another magic number, whose checksum is right, but which is no entry.
static FILES: [(Bytes, Told); 16] = [
    (Cut(138), Told::Run(4, 116, 138)),
    (Cut(137), Told::Run(3, 84, 116)),
    (Cut(116), Told::Run(3, 84, 116)),
    (Cut(26), Told::Run(0, 0, 26)),
    (Cut(25), Told::Run(0, 0, 0)),
    (Cut(0), Told::Run(0, 0, 0)),
    (
        With(
            b"\
\x06\x9b\x00\x85\
\x05\
\x00\
\x00\x00\x00\x74\
\x00\x00\x00\x08\
\x00\x00\x00\x00\x00\x00\x00\x03",
        ),
        Told::Run(5, 138, 160),
    ),
    (
        With(
            b"\
\x04\xfb\x00\x65\
\x05\
\x00\
\x00\x00\x00\x54\
\x00\x00\x00\x08\
\x00\x00\x00\x00\x00\x00\x00\x03",
        ),
        Told::Run(4, 116, 138),
    ),
    (
        With(
            b"\
\x14\x67\x01\xa5\
\x01\
\x00\
\x00\x00\x00\x74\
\x00\x00\x00\x0c\
\x4a\x45\x4c\x47\
\x00\x00\x00\x01\
\x00\x00\x00\x00",
        ),
        Told::Run(4, 116, 138),
    ),
    (With(&[0; 64]), Told::Run(4, 116, 138)),
    (Alone(OF_FILE_7, 7), Told::Run(0, 0, 26)),
    (Alone(OF_FILE_7, 0), Told::Damaged),
    (
        Alone(
            b"\
\x0c\xbf\x01\x39\
\x01\
\x00\
\x00\x00\x00\x00\
\x00\x00\x00\x0c\
\x4a\x45\x4c\x47\
\x00\x00\x00\x02\
\x00\x00\x00\x07",
            0,
        ),
        Told::VersionUnknown(2),
    ),
    (
        Alone(
            b"\
\x0d\x08\x01\x36\
\x01\
\x00\
\x00\x00\x00\x05\
\x00\x00\x00\x0c\
\x4a\x45\x4c\x47\
\x00\x00\x00\x01\
\x00\x00\x00\x00",
            0,
        ),
        Told::Damaged,
    ),
    (
        Alone(
            b"\
\x00\xb7\x00\x11\
\x05\
\x00\
\x00\x00\x00\x00\
\x00\x00\x00\x08\
\x00\x00\x00\x00\x00\x00\x00\x03",
            0,
        ),
        Told::Damaged,
    ),
    (
        Alone(
            b"\
\x0c\xbf\x01\x32\
\x01\
\x00\
\x00\x00\x00\x00\
\x00\x00\x00\x0c\
\x4b\x45\x4c\x47\
\x00\x00\x00\x01\
\x00\x00\x00\x00",
            0,
        ),
        Told::Run(0, 0, 0),
    ),
];

#[test]
fn tells_what_files_are(rt: HostRuntime) {
    let wrong = first_wrong(&FILES, |&(bytes, want)| {
        Ok::<bool, AllocError>(tell_of(rt.alloc(), bytes)? == want)
    });
    assert_eq!(rt; wrong, Ok(None));
}

// Whether these are the entries of two transactions of one change each, of which the second is known.
fn are_handed_on(entries: &[Entry]) -> bool {
    let [
        _,
        _,
        Entry::Put {
            db,
            name,
            value,
            ..
        },
        Entry::Commit { txn },
    ] = entries
    else {
        return false;
    };
    *db == 1
        && name.key.as_slice() == b"a".as_slice()
        && value.as_slice() == b"1".as_slice()
        && txn.0 == 2
}

fn hands_on(alloc: Global) -> Result<bool, AllocError> {
    let FileScan::Prefix(run) = scan_bytes(alloc, first(), FileNo(0))? else {
        return Ok(false);
    };
    let same = are_handed_on(run.entries.as_slice());
    drop(run);
    Ok(same)
}

#[test]
fn entries_are_handed_on(rt: HostRuntime) {
    assert!(rt; hands_on(rt.alloc()) == Ok(true));
}
