// What logs mean that are recovered from a disk in memory.
use crate::samples::{first, second};
use in_tree::LoadedTrees;
use je_disk::Disk;
use je_lsn::{FileNo, Lsn};
use je_order::{Name, Octets};
use log_replay::Corruption;
use mem_disk::MemDisk;
use record_map::SortKey;
use record_tree::Loads;
use recovery_je::{RecoverErr, Recovered, recover_disk};
use std::alloc::{AllocError, Global};

// What a log of files from number 0 on comes to.
fn recovered(alloc: Global, files: &[&[u8]]) -> Result<Recovered<LoadedTrees>, RecoverErr> {
    let mut disk = MemDisk::new(alloc);
    let mut number = 0u32;
    for bytes in files {
        if disk.append(FileNo(number), bytes).is_err() {
            return Err(RecoverErr::Disk);
        }
        number = number.saturating_add(1);
    }
    recovered_from(alloc, disk)
}

fn recovered_from(alloc: Global, disk: MemDisk) -> Result<Recovered<LoadedTrees>, RecoverErr> {
    let mut disk = disk;
    let trees = LoadedTrees::new(alloc, 128, 0);
    recover_disk(alloc, &mut disk, trees)
}

// Whether the trees have a record of this key in database 1, with this data.
fn has(trees: &LoadedTrees, alloc: Global, key: u8, data: u8) -> Result<bool, AllocError> {
    let name = Name {
        key: Octets::from_slice(alloc, &[key])?,
        dup: Octets::new(alloc),
    };
    let name = SortKey::new(alloc, name)?;
    let found = match trees.get(1, &name) {
        Some((_, value)) => value == [data].as_slice(),
        None => false,
    };
    drop(name);
    Ok(found)
}

// Whether the recovery of both files found all that they have.
fn is_whole(whole: &Recovered<LoadedTrees>, alloc: Global) -> Result<bool, AllocError> {
    let same = (whole.databases, whole.records) == (1, 2)
        && (whole.last_txn, whole.last_db) == (3, 1)
        && (whole.trees.count(0), whole.trees.count(1)) == (1, 2);
    Ok(same && has(&whole.trees, alloc, b'a', b'1')? && has(&whole.trees, alloc, b'b', b'2')?)
}

#[test]
fn recovers_what_is_committed(rt: HostRuntime) {
    let alloc = rt.alloc();
    let files = [first().as_slice(), second().as_slice()];
    let Ok(whole) = recovered(alloc, &files) else {
        panic!(rt; "the log was not recovered");
    };
    assert!(rt; is_whole(&whole, alloc) == Ok(true));
    drop(whole);
}

#[test]
fn leaves_out_what_is_not_committed(rt: HostRuntime) {
    let Ok(part) = recovered(rt.alloc(), &[&first()[..116]]) else {
        panic!(rt; "the log was not recovered");
    };
    assert!(rt; (part.databases, part.records, part.last_txn) == (1, 0, 2));
    drop(part);
}

#[test]
fn begins_with_nothing(rt: HostRuntime) {
    let Ok(new) = recovered(rt.alloc(), &[]) else {
        panic!(rt; "the log was not recovered");
    };
    assert!(rt; (new.databases, new.records, new.last_txn, new.last_db) == (0, 0, 0, 0));
    drop(new);
}

// The first entry of transaction 1: the database t with number 0, or as one of duplicates with number 1.
const NUMBER_0: &[u8] = b"\
\x06\x12\x00\x8f\
\x02\
\x00\
\x00\x00\x00\x00\
\x00\x00\x00\x16\
\x00\x00\x00\x00\x00\x00\x00\x01\
\x00\x00\x00\x00\
\x00\x01\
t\
\x00\x00\
\x00\x00\x00\x00\
\x00";

const DUPLICATES: &[u8] = b"\
\x06\x15\x00\x91\
\x02\
\x00\
\x00\x00\x00\x00\
\x00\x00\x00\x16\
\x00\x00\x00\x00\x00\x00\x00\x01\
\x00\x00\x00\x00\
\x00\x01\
t\
\x00\x00\
\x00\x00\x00\x01\
\x01";

// Its second entry: the database u with number 1, or in database 1 a record of a and the dup x, and one
// with data beside it.
const SAME_NUMBER: &[u8] = b"\
\x08\xda\x00\xab\
\x02\
\x00\
\x00\x00\x00\x1a\
\x00\x00\x00\x16\
\x00\x00\x00\x00\x00\x00\x00\x01\
\x00\x00\x00\x00\
\x00\x01\
u\
\x00\x00\
\x00\x00\x00\x01\
\x00";

const WITH_DUP: &[u8] = b"\
\x06\x15\x01\x0c\
\x02\
\x00\
\x00\x00\x00\x1a\
\x00\x00\x00\x12\
\x00\x00\x00\x00\x00\x00\x00\x01\
\x00\x00\x00\x01\
\x00\x01\
a\
\x00\x01\
x";

const WITH_DATA: &[u8] = b"\
\x07\x66\x01\x3e\
\x02\
\x00\
\x00\x00\x00\x1a\
\x00\x00\x00\x13\
\x00\x00\x00\x00\x00\x00\x00\x01\
\x00\x00\x00\x01\
\x00\x01\
a\
\x00\x01\
x1";

// Its commit behind two entries.
const COMMIT: &[u8] = b"\
\x03\xdb\x00\x4d\
\x05\
\x00\
\x00\x00\x00\x3e\
\x00\x00\x00\x08\
\x00\x00\x00\x00\x00\x00\x00\x01";

// Whether an error names a wrong record that was put at this offset of file 0.
fn names_record_at(error: &RecoverErr, offset: u32) -> bool {
    match error {
        RecoverErr::Corrupt(corruption) => {
            *corruption == Corruption::Tree(Lsn::new(FileNo(0), offset))
        }
        _ => false,
    }
}

// Whether the entry at this offset of file 0, which has these pieces, is the first that put a wrong record.
fn is_wrong_at(alloc: Global, pieces: &[&[u8]], offset: u32) -> bool {
    let mut disk = MemDisk::new(alloc);
    for piece in pieces {
        if disk.append(FileNo(0), piece).is_err() {
            return false;
        }
    }
    let Err(error) = recovered_from(alloc, disk) else {
        return false;
    };
    let found = names_record_at(&error, offset);
    drop(error);
    found
}

#[test]
fn finds_the_first_wrong_record(rt: HostRuntime) {
    let alloc = rt.alloc();
    let header = &first()[..26];
    let plain = &first()[..62];
    let number_0 = [header, NUMBER_0, &first()[62..84]];
    assert!(rt; is_wrong_at(alloc, &number_0, 26));
    assert!(rt; is_wrong_at(alloc, &[plain, SAME_NUMBER, COMMIT], 62));
    assert!(rt; is_wrong_at(alloc, &[plain, WITH_DUP, COMMIT], 62));
    assert!(rt; is_wrong_at(alloc, &[header, DUPLICATES, WITH_DATA, COMMIT], 62));
}

// A log with a checkpoint whose images have slots outside the bounds of their nodes: in database 1 the BIN
// of the names below m has z, and that of those from m on has b, each at the record of a; the IN above the
// first one has a child z, and that above the second a child b below c, both at entries that are no images.
pub const OUTSIDE: &[u8] = b"\
\x0c\xb3\x01\x31\x01\x00\x00\x00\x00\x00\x00\x00\x00\x0c\x4a\x45\
\x4c\x47\x00\x00\x00\x01\x00\x00\x00\x00\
\x06\x14\x00\x90\x02\x00\x00\x00\x00\x00\x00\x00\x00\x16\x00\x00\
\x00\x00\x00\x00\x00\x01\x00\x00\x00\x00\x00\x01\x74\x00\x00\x00\
\x00\x00\x01\x00\
\x02\x07\x00\x29\x05\x00\x00\x00\x00\x1a\x00\x00\x00\x08\x00\x00\
\x00\x00\x00\x00\x00\x01\
\x09\x13\x00\xe9\x02\x00\x00\x00\x00\x3e\x00\x00\x00\x12\x00\x00\
\x00\x00\x00\x00\x00\x02\x00\x00\x00\x01\x00\x01\x61\x00\x00\x31\
\x04\xfa\x00\x64\x05\x00\x00\x00\x00\x54\x00\x00\x00\x08\x00\x00\
\x00\x00\x00\x00\x00\x02\
\x19\x2d\x01\x2a\x08\x00\x00\x00\x00\x74\x00\x00\x00\x1c\x00\x00\
\x00\x00\x00\x00\x00\x00\x00\x00\x00\x01\x00\x01\x00\x01\x74\x00\
\x00\x00\x00\x00\x00\x00\x00\x00\x00\x1a\
\x37\xd1\x02\x47\x08\x00\x00\x00\x00\x8a\x00\x00\x00\x2a\x00\x00\
\x00\x01\x00\x00\x00\x00\x00\x00\x00\x02\x00\x02\x00\x01\x61\x00\
\x00\x00\x00\x00\x00\x00\x00\x00\x00\x54\x00\x01\x7a\x00\x00\x00\
\x00\x00\x00\x00\x00\x00\x00\x54\
\x21\x0a\x01\x95\x08\x00\x00\x00\x00\xb4\x00\x00\x00\x1c\x00\x00\
\x00\x01\x00\x00\x00\x00\x00\x00\x00\x03\x00\x01\x00\x01\x62\x00\
\x00\x00\x00\x00\x00\x00\x00\x00\x00\x54\
\x4c\x35\x02\xd1\x07\x00\x00\x00\x00\xec\x00\x00\x00\x29\x00\x00\
\x00\x01\x00\x00\x00\x00\x00\x00\x00\x04\x02\x00\x02\x00\x01\x61\
\x00\x00\x00\x00\x00\x00\x00\x00\x00\xb4\x00\x01\x7a\x00\x00\x00\
\x00\x00\x00\x00\x00\x00\x1a\
\x1d\x8f\x02\x1f\x07\x00\x00\x00\x01\x16\x00\x00\x00\x29\x00\x00\
\x00\x01\x00\x00\x00\x00\x00\x00\x00\x05\x02\x00\x02\x00\x01\x62\
\x00\x00\x00\x00\x00\x00\x00\x00\x00\x1a\x00\x01\x63\x00\x00\x00\
\x00\x00\x00\x00\x00\x00\xec\
\x27\x3c\x01\xc0\x07\x00\x00\x00\x01\x4d\x00\x00\x00\x29\x00\x00\
\x00\x01\x00\x00\x00\x00\x00\x00\x00\x06\x03\x00\x02\x00\x01\x61\
\x00\x00\x00\x00\x00\x00\x00\x00\x01\x16\x00\x01\x6d\x00\x00\x00\
\x00\x00\x00\x00\x00\x01\x4d\
\x07\xd1\x00\x99\x0a\x00\x00\x00\x01\x84\x00\x00\x00\x08\x00\x00\
\x00\x00\x00\x00\x00\x01\
\xb9\x46\x03\xaa\x0b\x00\x00\x00\x01\xbb\x00\x00\x00\x4e\x00\x00\
\x00\x00\x00\x00\x00\x01\x00\x00\x00\x00\x00\x00\x01\xbb\x00\x00\
\x00\x00\x00\x00\x01\xbb\x00\x00\x00\x00\x00\x00\x00\x02\x00\x00\
\x00\x00\x00\x00\x00\x06\x00\x00\x00\x01\x00\x00\x00\x00\x00\x00\
\x00\x00\x00\x02\x00\x00\x00\x00\x00\x00\x00\x00\x00\x00\x00\x8a\
\x00\x00\x00\x01\x00\x00\x00\x00\x00\x00\x01\x84";

#[test]
fn reads_past_what_lies_outside_bounds(rt: HostRuntime) {
    let alloc = rt.alloc();
    let Ok(part) = recovered(alloc, &[OUTSIDE]) else {
        panic!(rt; "the log was not recovered");
    };
    assert!(rt; (part.databases, part.records, part.last_txn) == (1, 1, 2));
    assert!(rt; part.trees.count(1) == 1);
    assert!(rt; has(&part.trees, alloc, b'a', b'1') == Ok(true));
    drop(part);
}
