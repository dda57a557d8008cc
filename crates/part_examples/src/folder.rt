// A disk over a folder. Tests run in one folder, so that each has folders of its own in it.
use crate::disks::Change::{Append, Create, Cut, Nothing, Remove, Sync};
use crate::disks::Step::{Do, IsLong, Lists, Mount, NoJob, ReadAround, Reads, SyncAround};
use crate::disks::{self, Row};
use dir_disk::DirDisk;
use je_disk::{Disk, DiskErr, EXTENSION, SyncDone, SyncJob};
use je_lsn::FileNo;
use std::alloc::AllocError;
use std::os::unix::fs::symlink;
use std::sync::{Mutex, Wait};
use std::test::Fail;
use std::{fs, io, thread};

// The first step on a new disk over the folder of which there does not come what is wanted.
fn wrong_step(rt: &HostRuntime, path: &str, rows: &[Row]) -> Result<Option<usize>, AllocError> {
    let mut disk = DirDisk::new(rt, path)?;
    let wrong = disks::wrong_step(rt.alloc(), &mut disk, rows);
    drop(disk);
    Ok(wrong)
}

#[test]
fn is_a_disk(rt: HostRuntime) {
    for (path, rows) in &disks::SCRIPTS {
        let wrong = wrong_step(&rt, path, rows);
        assert!(rt; wrong == Ok(None), "{path}: {wrong:?}");
    }
}

// Of the files that stay the disk lists no other, nor what is no log file.
static KEPT: [Row; 6] = [
    (Do(Create(26)), Ok(true), 0),
    (Do(Append(3, b"abcde")), Ok(true), 0),
    (Do(Append(6, b"z")), Ok(true), 0),
    (Do(Sync), Ok(true), 0),
    (Do(Remove(6)), Ok(true), 0),
    (Lists(&[FileNo(3), FileNo(26)]), Ok(true), 0),
];

// A disk goes on with those files.
static GONE_ON: [Row; 3] = [
    (Lists(&[FileNo(3), FileNo(26)]), Ok(true), 0),
    (Do(Append(3, b"!")), Ok(true), 0),
    (Reads(3, 4, 2, b"e!.."), Ok(true), 0),
];

// Makes the folder, with files that are no log files.
fn make_kept(rt: &HostRuntime) -> io::Result<()> {
    fs::create_dir(rt, "kept")?;
    fs::write(rt, "kept/notes.txt", "no log file")?;
    fs::write(rt, "kept/0000000A.jdb", "no log file")
}

// Whether a file is there with this text.
fn has_text(rt: &HostRuntime, path: &str, want: &str) -> bool {
    let Ok(text) = fs::read_to_string(rt, path) else {
        return false;
    };
    let same = text.as_str() == want;
    drop(text);
    same
}

#[test]
fn keeps_files_in_a_folder(rt: HostRuntime) {
    assert!(rt; make_kept(&rt).is_ok());
    assert_eq!(rt; wrong_step(&rt, "kept", &KEPT), Ok(None));
    assert!(rt; has_text(&rt, "kept/00000003.jdb", "abcde"));
    assert!(rt; matches!(fs::exists(&rt, "kept/00000006.jdb"), Ok(false)));
    assert_eq!(rt; wrong_step(&rt, "kept", &GONE_ON), Ok(None));
}

// A job syncs a file that has grown, and no other sync comes.
static GROWN: [Row; 2] = [
    (Do(Append(3, b"abc")), Ok(true), 0),
    (SyncAround(Append(3, b"de"), 1), Ok(true), 0),
];

// A disk that finds the file with its room takes it as it stands, and cuts it.
static FOUND: [Row; 5] = [
    (IsLong(3, EXTENSION), Ok(true), 0),
    (Reads(3, 3, 4, b"de\0\0"), Ok(true), 0),
    (Do(Cut(3, 5)), Ok(true), 0),
    (Do(Append(3, b"f")), Ok(true), 0),
    (Do(Sync), Ok(true), 0),
];

// Whether a file is so long.
fn has_len(rt: &HostRuntime, path: &str, want: u64) -> bool {
    match fs::metadata(rt, path) {
        Ok(found) => found.len() == want,
        Err(_) => false,
    }
}

#[test]
fn sets_room_aside(rt: HostRuntime) {
    assert_eq!(rt; wrong_step(&rt, "grown", &GROWN), Ok(None));
    assert!(rt; has_len(&rt, "grown/00000003.jdb", EXTENSION));
    assert_eq!(rt; wrong_step(&rt, "grown", &FOUND), Ok(None));
    assert!(rt; has_text(&rt, "grown/00000003.jdb", "abcdef"));
}

static ON_A_FILE: [Row; 2] = [
    (Mount, Err(DiskErr::Failed), 1),
    (Do(Append(0, b"x")), Err(DiskErr::Failed), 2),
];

#[test]
fn is_no_disk_where_a_file_stands(rt: HostRuntime) {
    assert!(rt; fs::write(&rt, "no_folder", "a file").is_ok());
    assert_eq!(rt; wrong_step(&rt, "no_folder", &ON_A_FILE), Ok(None));
}

// An empty name, as a variable of a shell gives that is not set, is no folder: not the one above all, and not the
// current one.
static NO_NAME: [Row; 5] = [
    (Mount, Err(DiskErr::Failed), 1),
    (Do(Append(5, b"x")), Err(DiskErr::Failed), 2),
    (Do(Create(5)), Err(DiskErr::Failed), 3),
    (Do(Sync), Err(DiskErr::Failed), 4),
    (Do(Remove(5)), Err(DiskErr::Failed), 5),
];

#[test]
fn is_no_disk_without_a_name(rt: HostRuntime) {
    assert_eq!(rt; wrong_step(&rt, "", &NO_NAME), Ok(None));
    assert!(rt; matches!(fs::exists(&rt, "00000005.jdb"), Ok(false)));
    assert!(rt; matches!(fs::exists(&rt, "/00000005.jdb"), Ok(false)));
}

// How many faults a disk has that tries to be mounted beside another one, and again once that is gone.
fn faults_beside(rt: &HostRuntime) -> Result<(u64, u64), DiskErr> {
    let mut first = DirDisk::new(rt, "held")?;
    let mut second = DirDisk::new(rt, "held")?;
    let made = first.append(FileNo(3), b"abc");
    let beside = second.mount();
    let faults = second.faults();
    drop(first);
    let alone = second.mount();
    let faults_after = second.faults();
    drop(second);
    made?;
    alone?;
    match beside {
        Ok(()) => Err(DiskErr::Failed),
        Err(_) => Ok((faults, faults_after)),
    }
}

#[test]
fn keeps_its_folder(rt: HostRuntime) -> Result<(), Fail> {
    assert!(rt; matches!(faults_beside(&rt), Ok((1, 1))));
    Ok(())
}

// A sync whose job runs while the disk is free for others.
fn sync_by_job(rt: &impl Wait, disk: &Mutex<DirDisk<HostRuntime>>) -> Result<(), DiskErr> {
    let job = disk.lock(rt).begin_sync()?;
    let done = job.run();
    let mut disk = disk.lock(rt);
    if disk.sync_out() == Some(done.number()) {
        disk.end_sync(done)
    } else {
        done.give_up();
        Ok(())
    }
}

fn append_each(
    rt: &impl Wait,
    disk: &Mutex<DirDisk<HostRuntime>>,
    bytes: &[u8],
) -> Result<(), DiskErr> {
    for byte in bytes {
        disk.lock(rt).append(FileNo(3), &[*byte])?;
    }
    Ok(())
}

// A disk with a file of three bytes.
fn disk_with_file(rt: &HostRuntime) -> Result<DirDisk<HostRuntime>, DiskErr> {
    let mut disk = DirDisk::new(rt, "threads")?;
    let appended = disk.append(FileNo(3), b"abc");
    if appended.is_err() {
        drop(disk);
        return Err(DiskErr::Failed);
    }
    Ok(disk)
}

#[test]
fn syncs_in_another_thread(rt: HostRuntime) -> Result<(), Fail> {
    let disk = Mutex::new(disk_with_file(&rt)?);
    let (synced, appended) = thread::join(
        &rt,
        || sync_by_job(&rt, &disk),
        || append_each(&rt, &disk, b"defghijk"),
    );
    let again = sync_by_job(&rt, &disk);
    let trimmed = disk.lock(&rt).sync_now();
    let faults = disk.lock(&rt).faults();
    drop(disk);
    assert!(rt;
        synced.is_ok() && appended.is_ok() && again.is_ok() && trimmed.is_ok() && faults == 0
    );
    assert!(rt; has_text(&rt, "threads/00000003.jdb", "abcdefghijk"));
    Ok(())
}

static MADE: [Row; 2] = [(Do(Create(1)), Ok(true), 0), (Do(Sync), Ok(true), 0)];

// A folder stands where a log file should.
static FAULTS: [Row; 4] = [
    (Do(Cut(7, 0)), Err(DiskErr::Failed), 1),
    (Do(Remove(7)), Err(DiskErr::Failed), 2),
    (ReadAround(7, Nothing, b""), Err(DiskErr::Failed), 3),
    (NoJob, Ok(true), 3),
];

#[test]
fn counts_faults(rt: HostRuntime) {
    assert_eq!(rt; wrong_step(&rt, "faults", &MADE), Ok(None));
    assert!(rt; fs::create_dir(&rt, "faults/00000007.jdb").is_ok());
    assert_eq!(rt; wrong_step(&rt, "faults", &FAULTS), Ok(None));
}

// A device that has no room and cannot be synced stands where a log file should. What the system let go it does
// not tell again.
static LOST: [Row; 6] = [
    (Do(Append(8, b"x")), Err(DiskErr::Failed), 1),
    (SyncAround(Nothing, 1), Err(DiskErr::Failed), 2),
    (NoJob, Ok(true), 2),
    (Do(Remove(8)), Ok(true), 2),
    (Do(Sync), Err(DiskErr::Failed), 3),
    (SyncAround(Nothing, 2), Err(DiskErr::Failed), 4),
];

#[test]
fn trusts_no_sync_after_one_that_failed(rt: HostRuntime) {
    assert_eq!(rt; wrong_step(&rt, "lost", &MADE), Ok(None));
    assert!(rt; symlink(&rt, "/dev/null", "lost/00000008.jdb").is_ok());
    assert_eq!(rt; wrong_step(&rt, "lost", &LOST), Ok(None));
}

// The first step of a disk over a folder that has what is not ours to touch.
static NOT_OURS: [Row; 1] = [(Mount, Err(DiskErr::Failed), 1)];

// Makes a folder of Berkeley DB Java Edition, and folders in which a symbolic link, a folder and a device stand under a
// log file's name.
fn make_not_ours(rt: &HostRuntime) -> io::Result<()> {
    fs::create_dir_all(rt, "not_ours/lock_file")?;
    fs::write(rt, "not_ours/lock_file/00000000.jdb", "of another program")?;
    fs::write(rt, "not_ours/lock_file/je.lck", "")?;
    fs::create_dir(rt, "not_ours/link")?;
    fs::write(rt, "not_ours/behind_it", "of someone else")?;
    symlink(rt, "../behind_it", "not_ours/link/00000000.jdb")?;
    fs::create_dir(rt, "not_ours/link_to_nothing")?;
    symlink(rt, "nothing", "not_ours/link_to_nothing/00000007.jdb")?;
    fs::create_dir_all(rt, "not_ours/folder/00000003.jdb")?;
    fs::create_dir(rt, "not_ours/device")?;
    symlink(rt, "/dev/null", "not_ours/device/00000001.jdb")
}

static FOLDERS_NOT_OURS: [&str; 5] = [
    "not_ours/lock_file",
    "not_ours/link",
    "not_ours/link_to_nothing",
    "not_ours/folder",
    "not_ours/device",
];

// Files of other names, links and folders too, are no log files, and are left alone.
fn make_beside(rt: &HostRuntime) -> io::Result<()> {
    fs::create_dir_all(rt, "beside/je.lck.d")?;
    fs::create_dir(rt, "beside/backup")?;
    symlink(rt, "../not_ours", "beside/0000000A.jdb")
}

static BESIDE: [Row; 3] = [
    (Mount, Ok(true), 0),
    (Do(Append(4, b"ours")), Ok(true), 0),
    (Do(Sync), Ok(true), 0),
];

#[test]
fn leaves_alone_what_is_not_ours(rt: HostRuntime) {
    assert!(rt; make_not_ours(&rt).is_ok());
    for path in &FOLDERS_NOT_OURS {
        let wrong = wrong_step(&rt, path, &NOT_OURS);
        assert!(rt; wrong == Ok(None), "{path}: {wrong:?}");
    }
    assert!(rt; has_text(&rt, "not_ours/lock_file/00000000.jdb", "of another program"));
    assert!(rt; has_text(&rt, "not_ours/behind_it", "of someone else"));
    assert!(rt; make_beside(&rt).is_ok());
    assert_eq!(rt; wrong_step(&rt, "beside", &BESIDE), Ok(None));
}
