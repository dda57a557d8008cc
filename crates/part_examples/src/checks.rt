// What checks of logs find in a disk in memory: all that is wrong, and what is left.
use crate::samples::{first, second};
use check_laws::{Checked, DatabaseCount, FileRun, Finding};
use in_tree::LoadedTrees;
use je_disk::Disk;
use je_lsn::{FileNo, Lsn};
use log_replay::Corruption;
use mem_disk::MemDisk;
use recovery_je::{RecoverErr, check_disk};
use std::alloc::Global;

// A finding that is awaited: a record, a node or an LSN at this offset of file 0, or that files are missing from a number on up to the one
// before another.
#[derive(Clone, Copy)]
enum Awaited {
    At(u32),
    Gap(u32, u32),
}

// What the check of files comes to that have these bytes, piece by piece.
fn checked(alloc: Global, pieces: &[(u32, &[u8])]) -> Result<Checked, RecoverErr> {
    let mut disk = MemDisk::new(alloc);
    for (file, bytes) in pieces {
        if disk.append(FileNo(*file), bytes).is_err() {
            return Err(RecoverErr::Disk);
        }
    }
    checked_on(alloc, disk)
}

fn checked_on(alloc: Global, disk: MemDisk) -> Result<Checked, RecoverErr> {
    let mut disk = disk;
    check_disk(alloc, &mut disk, LoadedTrees::new(alloc, 128, 0))
}

// Whether the files have so many entries, with the headers, and their valid prefixes end there.
fn has_runs(runs: &[FileRun], rows: &[(u32, u64, u32)]) -> bool {
    let mut same = runs.len() == rows.len();
    for (run, (file, entries, end)) in runs.iter().zip(rows) {
        same = same && (run.file.0, run.entries, run.end) == (*file, *entries, *end);
    }
    same
}

// Whether the databases of these names have so many records.
fn has_counts(counts: &[DatabaseCount], rows: &[(u8, u64)]) -> bool {
    let mut same = counts.len() == rows.len();
    for (count, (name, records)) in counts.iter().zip(rows) {
        same = same && count.name.as_slice() == [*name].as_slice() && count.records == *records;
    }
    same
}

fn is_finding(finding: &Finding, awaited: Awaited) -> bool {
    match (finding, awaited) {
        (Finding::Wrong(corruption), Awaited::At(offset)) => {
            *corruption == Corruption::Tree(Lsn::new(FileNo(0), offset))
        }
        (Finding::Gap { first, past }, Awaited::Gap(from, to)) => (first.0, past.0) == (from, to),
        _ => false,
    }
}

fn has_findings(findings: &[Finding], rows: &[Awaited]) -> bool {
    let mut same = findings.len() == rows.len();
    for (finding, awaited) in findings.iter().zip(rows) {
        same = same && is_finding(finding, *awaited);
    }
    same
}

// Whether a check comes to this.
fn comes_to(
    check: Checked,
    runs: &[(u32, u64, u32)],
    counts: &[(u8, u64)],
    findings: &[Awaited],
) -> bool {
    let same = has_runs(check.files.as_slice(), runs)
        && has_counts(check.databases.as_slice(), counts)
        && has_findings(check.findings.as_slice(), findings);
    drop(check);
    same
}

#[test]
fn finds_nothing_wrong(rt: HostRuntime) {
    let pieces: [(u32, &[u8]); 2] = [(0, first().as_slice()), (1, second().as_slice())];
    let Ok(check) = checked(rt.alloc(), &pieces) else {
        panic!(rt; "the log was not checked");
    };
    assert!(rt; comes_to(check, &[(0, 5, 138), (1, 3, 80)], &[(b't', 2)], &[]));
}

// Behind the database t, number 1, transaction 1 makes the database u with that number too, and puts a record with a dup into t.
const SAME_NUMBER: &[u8] = b"\
\x08\xda\x00\xab\
\x02\
\x00\
\x00\x00\x00\x1a\
\x00\x00\x00\x16\
\x00\x00\x00\x00\x00\x00\x00\x01\
\x00\x00\x00\x00\
\x00\x01\
u\
\x00\x00\
\x00\x00\x00\x01\
\x00";

const WITH_DUP: &[u8] = b"\
\x09\x51\x01\x30\
\x02\
\x00\
\x00\x00\x00\x3e\
\x00\x00\x00\x12\
\x00\x00\x00\x00\x00\x00\x00\x01\
\x00\x00\x00\x01\
\x00\x01\
a\
\x00\x01\
x";

const COMMIT: &[u8] = b"\
\x05\xaf\x00\x71\
\x05\
\x00\
\x00\x00\x00\x62\
\x00\x00\x00\x08\
\x00\x00\x00\x00\x00\x00\x00\x01";

#[test]
fn finds_each_wrong_record(rt: HostRuntime) {
    let pieces: [(u32, &[u8]); 4] = [
        (0, &first()[..62]),
        (0, SAME_NUMBER),
        (0, WITH_DUP),
        (0, COMMIT),
    ];
    let Ok(check) = checked(rt.alloc(), &pieces) else {
        panic!(rt; "the log was not checked");
    };
    let findings = [Awaited::At(62), Awaited::At(98)];
    assert!(rt; comes_to(check, &[(0, 5, 152)], &[(b't', 0)], &findings));
}

// Images behind file 0: in database 1 the IN has two children. The first one has a and b, and at b's LSN stands a Commit. The second has
// the first one's number, and z at the LSN of a. A checkpoint ends with the catalog's BIN and the IN as its roots.
const IMAGES: &[u8] = b"\
\x19\x2d\x01\x2a\x08\x00\x00\x00\x00\x74\x00\x00\x00\x1c\x00\x00\
\x00\x00\x00\x00\x00\x00\x00\x00\x00\x01\x00\x01\x00\x01\x74\x00\
\x00\x00\x00\x00\x00\x00\x00\x00\x00\x1a\
\x36\x9b\x02\x19\x08\x00\x00\x00\x00\x8a\x00\x00\x00\x2a\x00\x00\
\x00\x01\x00\x00\x00\x00\x00\x00\x00\x02\x00\x02\x00\x01\x61\x00\
\x00\x00\x00\x00\x00\x00\x00\x00\x00\x54\x00\x01\x62\x00\x00\x00\
\x00\x00\x00\x00\x00\x00\x00\x3e\
\x22\x19\x01\xac\x08\x00\x00\x00\x00\xb4\x00\x00\x00\x1c\x00\x00\
\x00\x01\x00\x00\x00\x00\x00\x00\x00\x02\x00\x01\x00\x01\x7a\x00\
\x00\x00\x00\x00\x00\x00\x00\x00\x00\x54\
\x4c\x5a\x03\x95\x07\x00\x00\x00\x00\xec\x00\x00\x00\x29\x00\x00\
\x00\x01\x00\x00\x00\x00\x00\x00\x00\x03\x02\x00\x02\x00\x01\x61\
\x00\x00\x00\x00\x00\x00\x00\x00\x00\xb4\x00\x01\x6d\x00\x00\x00\
\x00\x00\x00\x00\x00\x00\xec\
\x02\x3b\x00\x2b\x0a\x00\x00\x00\x01\x16\x00\x00\x00\x08\x00\x00\
\x00\x00\x00\x00\x00\x01\
\x62\x05\x01\xef\x0b\x00\x00\x00\x01\x4d\x00\x00\x00\x4e\x00\x00\
\x00\x00\x00\x00\x00\x01\x00\x00\x00\x00\x00\x00\x01\x4d\x00\x00\
\x00\x00\x00\x00\x01\x4d\x00\x00\x00\x00\x00\x00\x00\x02\x00\x00\
\x00\x00\x00\x00\x00\x03\x00\x00\x00\x01\x00\x00\x00\x00\x00\x00\
\x00\x00\x00\x02\x00\x00\x00\x00\x00\x00\x00\x00\x00\x00\x00\x8a\
\x00\x00\x00\x01\x00\x00\x00\x00\x00\x00\x01\x16";

// The header of file 2.
const HEADER_2: &[u8] = b"\
\x0c\xb5\x01\x33\x01\x00\x00\x00\x00\x00\x00\x00\x00\x0c\x4a\x45\
\x4c\x47\x00\x00\x00\x01\x00\x00\x00\x02";

#[test]
fn goes_on_past_a_wrong_node(rt: HostRuntime) {
    let pieces: [(u32, &[u8]); 3] = [(0, first().as_slice()), (0, IMAGES), (2, HEADER_2)];
    let Ok(check) = checked(rt.alloc(), &pieces) else {
        panic!(rt; "the log was not checked");
    };
    let findings = [Awaited::At(62), Awaited::At(236), Awaited::Gap(1, 2)];
    assert!(rt; comes_to(check, &[(0, 11, 447), (2, 1, 26)], &[(b't', 1)], &findings));
}
