// Indexes in the files of an environment: their pairs have to be those of their primary's records.
use crate::samples::first;
use in_tree::LoadedTrees;
use je_disk::Disk;
use je_lsn::FileNo;
use mem_disk::MemDisk;
use recovery_je::{RecoverErr, Recovered, recover_disk};
use std::alloc::Global;

// Behind file 0, transaction 3 makes the database i, number 2, an index of t by the first byte of the data.
const INDEX: &[u8] = b"\
\x1f\xb0\x01\x0c\
\x02\
\x00\
\x00\x00\x00\x74\
\x00\x00\x00\x22\
\x00\x00\x00\x00\x00\x00\x00\x03\
\x00\x00\x00\x00\
\x00\x01\
i\
\x00\x00\
\x00\x00\x00\x02\
\x02\
\x00\x00\x00\x01\
\x00\x00\x00\x00\
\x00\x00\x00\x01";

// It puts the pair of the record of a there, or another one.
const PAIR: &[u8] = b"\
\x0f\x6b\x01\x38\
\x02\
\x00\
\x00\x00\x00\x8a\
\x00\x00\x00\x12\
\x00\x00\x00\x00\x00\x00\x00\x03\
\x00\x00\x00\x02\
\x00\x01\
1\
\x00\x01\
a";

const OTHER_PAIR: &[u8] = b"\
\x0f\x6f\x01\x39\
\x02\
\x00\
\x00\x00\x00\x8a\
\x00\x00\x00\x12\
\x00\x00\x00\x00\x00\x00\x00\x03\
\x00\x00\x00\x02\
\x00\x01\
2\
\x00\x01\
a";

// Its commit, behind a pair or behind none.
const COMMIT_PAIR: &[u8] = b"\
\x0a\x29\x00\xcb\
\x05\
\x00\
\x00\x00\x00\xba\
\x00\x00\x00\x08\
\x00\x00\x00\x00\x00\x00\x00\x03";

const COMMIT_ALONE: &[u8] = b"\
\x07\xb9\x00\x9b\
\x05\
\x00\
\x00\x00\x00\x8a\
\x00\x00\x00\x08\
\x00\x00\x00\x00\x00\x00\x00\x03";

// What file 0 comes to with these entries behind its own.
fn recovered(alloc: Global, pieces: &[&[u8]]) -> Result<Recovered<LoadedTrees>, RecoverErr> {
    let mut disk = MemDisk::new(alloc);
    if disk.append(FileNo(0), first().as_slice()).is_err() {
        return Err(RecoverErr::Disk);
    }
    for piece in pieces {
        if disk.append(FileNo(0), piece).is_err() {
            return Err(RecoverErr::Disk);
        }
    }
    recover_disk(alloc, &mut disk, LoadedTrees::new(alloc, 128, 0))
}

// Whether the pairs of the index i are not those of its primary.
fn is_wrong(alloc: Global, pieces: &[&[u8]]) -> bool {
    let Err(RecoverErr::WrongIndex(name)) = recovered(alloc, pieces) else {
        return false;
    };
    let same = name.as_slice() == b"i".as_slice();
    drop(name);
    same
}

#[test]
fn recovers_an_index(rt: HostRuntime) {
    let Ok(whole) = recovered(rt.alloc(), &[INDEX, PAIR, COMMIT_PAIR]) else {
        panic!(rt; "the log was not recovered");
    };
    assert!(rt; (whole.databases, whole.records) == (2, 2));
    assert!(rt; (whole.last_txn, whole.last_db) == (3, 2));
    drop(whole);
}

#[test]
fn finds_an_index_that_is_wrong(rt: HostRuntime) {
    let alloc = rt.alloc();
    assert!(rt; is_wrong(alloc, &[INDEX, COMMIT_ALONE]));
    assert!(rt; is_wrong(alloc, &[INDEX, OTHER_PAIR, COMMIT_PAIR]));
}
