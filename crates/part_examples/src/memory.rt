// A disk in memory: its files at once, calls that fail, and what a crash keeps.
use crate::disks::Change::{Append, Cut, Nothing, Remove, Sync};
use crate::disks::Step::{Do, GiveSyncUp, IsLong, NoJob, Reads, SyncAround};
use crate::disks::{self, Row};
use crate::rows::first_wrong;
use je_disk::DiskErr;
use je_lsn::FileNo;
use mem_disk::MemDisk;
use std::alloc::{AllocError, Global};

// The first step of which there does not come what is wanted.
fn wrong_step(alloc: Global, disk: &mut MemDisk, rows: &[Row]) -> Option<usize> {
    disks::wrong_step(alloc, disk, rows)
}

#[test]
fn is_a_disk(rt: HostRuntime) {
    let alloc = rt.alloc();
    for (name, rows) in &disks::SCRIPTS {
        let wrong = wrong_step(alloc, &mut MemDisk::new(alloc), rows);
        assert!(rt; wrong.is_none(), "{name}: {wrong:?}");
    }
}

// Of these calls the second, the fourth and the fifth fail.
static TOLD: [Row; 5] = [
    (Do(Append(2, b"x")), Ok(true), 0),
    (Do(Append(2, b"x")), Err(DiskErr::Failed), 1),
    (Do(Append(2, b"y")), Ok(true), 1),
    (Do(Cut(2, 0)), Err(DiskErr::Failed), 2),
    (Do(Remove(2)), Err(DiskErr::Failed), 3),
];

// A disk with the files that those calls left.
static AGAIN: [Row; 2] = [
    (IsLong(2, 2), Ok(true), 0),
    (Reads(2, 0, 2, b"xy.."), Ok(true), 0),
];

// The first job does not begin, and the second does not end.
static JOBS: [Row; 4] = [
    (GiveSyncUp(1), Err(DiskErr::Failed), 1),
    (NoJob, Ok(true), 1),
    (SyncAround(Nothing, 1), Err(DiskErr::Failed), 2),
    (NoJob, Ok(true), 2),
];

// The first step that does not come so where these calls fail, or of the others on a disk with the files that are
// left.
fn wrong_failing(
    alloc: Global,
    calls: &[u64],
    rows: &[Row],
    others: &[Row],
) -> Result<(Option<usize>, Option<usize>), AllocError> {
    let mut disk = MemDisk::new(alloc);
    let told = disk.fail_calls(alloc, calls);
    let wrong = wrong_step(alloc, &mut disk, rows);
    let files = disk.files(alloc);
    drop(disk);
    told?;
    let mut again = MemDisk::with_files(alloc, files?)?;
    let then_wrong = wrong_step(alloc, &mut again, others);
    drop(again);
    Ok((wrong, then_wrong))
}

#[test]
fn fails_where_told(rt: HostRuntime) {
    assert_eq!(rt;
        wrong_failing(rt.alloc(), &[2, 4, 5], &TOLD, &AGAIN),
        Ok((None, None))
    );
    assert_eq!(rt;
        wrong_failing(rt.alloc(), &[1, 3], &JOBS, &[]),
        Ok((None, None))
    );
}

// Calls 1 to 5 work; the fifth appends bytes that no sync made stable.
static STOPPED: [Row; 8] = [
    (Do(Append(1, b"abc")), Ok(true), 0),
    (Do(Append(2, b"wxyz")), Ok(true), 0),
    (Do(Sync), Ok(true), 0),
    (Do(Cut(2, 1)), Ok(true), 0),
    (Do(Append(1, b"de")), Ok(true), 0),
    (Do(Append(1, b"f")), Err(DiskErr::Failed), 1),
    (Do(Remove(2)), Err(DiskErr::Failed), 2),
    (Do(Sync), Err(DiskErr::Failed), 3),
];

// Where calls work again the files are as they were.
static GOING: [Row; 2] = [(IsLong(1, 5), Ok(true), 3), (IsLong(2, 1), Ok(true), 3)];

// What stays of each file, how long it may be, and whether it must or may be there. Behind the file that has grown
// there is room.
static CRASH_STATES: [(u32, &[u8], u64, bool, bool); 3] = [
    (1, b"abc", 1_048_576, true, true),
    (2, b"w", 4, true, true),
    (3, b"", 0, false, false),
];

fn has_crash_state(
    alloc: Global,
    disk: &MemDisk,
    f: u32,
    stable: &[u8],
    rest: (u64, bool, bool),
) -> Result<bool, AllocError> {
    let crash_state = disk.crash_state(alloc, FileNo(f))?;
    Ok(
        crash_state.stable.as_slice() == stable
            && (
                crash_state.max_len,
                crash_state.exists_always,
                crash_state.may_exist,
            ) == rest,
    )
}

// The first file whose mark is another.
fn wrong_mark(alloc: Global, disk: &MemDisk) -> Result<Option<usize>, AllocError> {
    first_wrong(
        &CRASH_STATES,
        |&(f, stable, max_len, exists_always, may_exist)| {
            has_crash_state(alloc, disk, f, stable, (max_len, exists_always, may_exist))
        },
    )
}

#[test]
fn stops_and_tells_what_stays(rt: HostRuntime) {
    let alloc = rt.alloc();
    let mut disk = MemDisk::new(alloc);
    disk.stop_after(5);
    assert_eq!(rt; wrong_step(alloc, &mut disk, &STOPPED), None);
    assert_eq!(rt; wrong_mark(alloc, &disk), Ok(None));
    disk.stop_after(u64::MAX);
    assert_eq!(rt; wrong_step(alloc, &mut disk, &GOING), None);
}
