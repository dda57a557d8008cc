// What a sync job of a folder syncs, by how many files and folders.
use crate::rows::first_wrong;
use Step::{Append, AppendInJob, Cut, Due, GiveJobUp, Mount, Remove, Sync};
use dir_disk::folder::Folder;
use je_disk::{SyncDone, SyncJob};
use je_lsn::FileNo;
use std::alloc::AllocError;
use std::io;
use std::io::{Error, ErrorKind};

// What is done to a folder's files.
#[derive(Clone, Copy)]
enum Step {
    Append(u32, &'static [u8]),
    Cut(u32, u64),
    Remove(u32),
    Mount,
    Sync,
    // a job during which the file grows
    AppendInJob(u32),
    // a job that is given up
    GiveJobUp,
    // a job that ends as one that has worked or failed, and how much it is to sync
    Due(bool, usize),
}

fn append_in_job(folder: &mut Folder<HostRuntime>, f: u32) -> io::Result<()> {
    let job = folder.begin_sync(1)?;
    let appended = folder.append(FileNo(f), b"e");
    job.run().give_up();
    folder.end_sync(true)?;
    appended
}

fn give_job_up(folder: &mut Folder<HostRuntime>) -> io::Result<()> {
    folder.begin_sync(2)?.run().give_up();
    folder.give_up_sync();
    Ok(())
}

// Begins a job, ends it as one that has worked or failed, and tells whether so much was to be synced.
fn is_due(folder: &mut Folder<HostRuntime>, worked: bool, want: usize) -> io::Result<()> {
    let job = folder.begin_sync(1)?;
    let count = job.due();
    job.run().give_up();
    if folder.end_sync(worked).is_ok() != worked || count != want {
        return Err(Error::from(ErrorKind::InvalidData));
    }
    Ok(())
}

fn take(folder: &mut Folder<HostRuntime>, step: Step) -> io::Result<()> {
    match step {
        Append(f, bytes) => folder.append(FileNo(f), bytes),
        Cut(f, len) => folder.cut(FileNo(f), len),
        Remove(f) => folder.remove(FileNo(f)),
        Mount => folder.mount(),
        Sync => folder.sync(),
        AppendInJob(f) => append_in_job(folder, f),
        GiveJobUp => give_job_up(folder),
        Due(worked, want) => is_due(folder, worked, want),
    }
}

// The first step on a new folder of this path that fails.
fn wrong_step(rt: &HostRuntime, path: &str, steps: &[Step]) -> Result<Option<usize>, AllocError> {
    let mut folder = Folder::new(rt, path)?;
    first_wrong(steps, |step| Ok(take(&mut folder, *step).is_ok()))
}

// The file, the folder and the folder's name at first, then what was written or cut. A job that failed
// leaves all as it was. Where a file goes, the folder is due; after a mount the folder and its name are.
static STEPS: [Step; 16] = [
    Due(true, 0),
    Append(3, b"abc"),
    Due(true, 3),
    Due(true, 0),
    Append(3, b"abc"),
    Due(false, 1),
    Cut(3, 9),
    Due(true, 1),
    Cut(3, 2),
    Due(true, 1),
    Remove(3),
    Remove(9),
    Due(true, 1),
    Mount,
    Due(true, 2),
    Due(true, 0),
];

// A file that grows while a job is out is due still, and one that a job did not sync.
static SINCE: [Step; 11] = [
    Append(3, b"abc"),
    Append(4, b"abc"),
    Sync,
    Append(3, b"d"),
    Append(4, b"d"),
    AppendInJob(3),
    Due(true, 1),
    Append(4, b"f"),
    GiveJobUp,
    Sync,
    Due(true, 0),
];

#[test]
fn syncs_what_is_due(rt: HostRuntime) {
    assert_eq!(rt; wrong_step(&rt, "due", &STEPS), Ok(None));
    assert_eq!(rt; wrong_step(&rt, "since", &SINCE), Ok(None));
}
