// What every disk does, from a disk on which nothing was done yet.
ghost use Rattle.std.specs.Prelude.{◌≡◌};

use Change::{Append, Create, Cut, Nothing, Remove, Sync};
use Step::{
    Do, GiveReadUp, GiveSyncUp, IsLong, Lists, Mount, MountInSync, NoJob, ReadAround, Reads,
    SyncAround,
};
use je_disk::{Disk, DiskErr, ReadDone, ReadJob, SyncDone, SyncJob};
use je_lsn::FileNo;
use std::alloc::Global;

/// What is done to a file, by its number, or to all of them.
#[derive(Clone, Copy)]
pub enum Change {
    Nothing,
    Append(u32, &'static [u8]),
    Create(u32),
    Cut(u32, u64),
    Remove(u32),
    Sync,
}

/// What is done to a disk, or asked of it.
#[derive(Clone, Copy)]
pub enum Step {
    Mount,
    Do(Change),
    /// The disk has these files and no others.
    Lists(&'static [FileNo]),
    /// A file is so long.
    IsLong(u32, u64),
    /// So many bytes are read from a file's offset, and a piece of dots then holds these.
    Reads(u32, u64, usize, &'static [u8]),
    /// No job is out.
    NoJob,
    /// A sync job of this number, that runs after a change and is ended.
    SyncAround(Change, u64),
    /// A sync job of this number that is given up.
    GiveSyncUp(u64),
    /// The reading of a file that ends after a change, and what it gives.
    ReadAround(u32, Change, &'static [u8]),
    /// The reading of file 3 with this number, which is given up after bytes were read.
    GiveReadUp(u64),
    /// A sync job that is given up by a mount.
    MountInSync,
}

/// A step, what comes of it, and how many faults there are then.
pub type Row = (Step, Result<bool, DiskErr>, u64);

/// What every disk does, and the name of a folder for it.
pub static SCRIPTS: [(&str, &[Row]); 6] = [
    (
        "files",
        &[
            (Mount, Ok(true), 0),
            (Lists(&[]), Ok(true), 0),
            (IsLong(7, 0), Ok(true), 0),
            (Do(Sync), Ok(true), 0),
            (Do(Append(7, b"abc")), Ok(true), 0),
            (Do(Append(7, b"de")), Ok(true), 0),
            (Do(Create(2)), Ok(true), 0),
            (Do(Create(7)), Ok(true), 0),
            (Do(Sync), Ok(true), 0),
            (Lists(&[FileNo(2), FileNo(7)]), Ok(true), 0),
            (IsLong(7, 5), Ok(true), 0),
            (IsLong(2, 0), Ok(true), 0),
            (Reads(7, 3, 2, b"de.."), Ok(true), 0),
            (Reads(7, 0, 4, b"abcd"), Ok(true), 0),
            (Reads(9, 0, 0, b"...."), Ok(true), 0),
        ],
    ),
    // Files are cut that are longer, as long, shorter or not there, and taken away.
    (
        "cuts",
        &[
            (Mount, Ok(true), 0),
            (Do(Append(1, b"abcdef")), Ok(true), 0),
            (Do(Append(2, b"xyz")), Ok(true), 0),
            (Do(Cut(1, 4)), Ok(true), 0),
            (Do(Cut(2, 3)), Ok(true), 0),
            (Do(Cut(2, 9)), Ok(true), 0),
            (Do(Cut(9, 0)), Ok(true), 0),
            (Do(Remove(8)), Ok(true), 0),
            (IsLong(1, 4), Ok(true), 0),
            (IsLong(2, 3), Ok(true), 0),
            (Do(Remove(2)), Ok(true), 0),
            (Do(Append(1, b"gh")), Ok(true), 0),
            (Lists(&[FileNo(1)]), Ok(true), 0),
            (IsLong(2, 0), Ok(true), 0),
            (Reads(1, 2, 4, b"cdgh"), Ok(true), 0),
        ],
    ),
    // A sync job that runs while bytes are put, one that is given up, and one beside a sync.
    (
        "syncs",
        &[
            (NoJob, Ok(true), 0),
            (SyncAround(Append(0, b"a"), 1), Ok(true), 0),
            (NoJob, Ok(true), 0),
            (IsLong(0, 1), Ok(true), 0),
            (GiveSyncUp(2), Ok(true), 0),
            (SyncAround(Sync, 3), Ok(true), 0),
        ],
    ),
    // A read job that is given up, one that runs while another file grows, and a mount, which gives up the
    // jobs that are out.
    (
        "reads",
        &[
            (Do(Append(3, b"abc")), Ok(true), 0),
            (GiveReadUp(1), Ok(true), 0),
            (ReadAround(3, Append(4, b"!"), b"abc"), Ok(true), 0),
            (NoJob, Ok(true), 0),
            (MountInSync, Ok(true), 0),
            (NoJob, Ok(true), 0),
        ],
    ),
    // Room behind a file's bytes is no part of the file, while it is open and behind a mount.
    (
        "rooms",
        &[
            (Do(Append(5, b"abc")), Ok(true), 0),
            (SyncAround(Append(5, b"d"), 1), Ok(true), 0),
            (IsLong(5, 4), Ok(true), 0),
            (Reads(5, 2, 2, b"cd.."), Ok(true), 0),
            (Reads(5, 4, 0, b"...."), Ok(true), 0),
            (ReadAround(5, Nothing, b"abcd"), Ok(true), 0),
            (ReadAround(5, Append(5, b"e"), b"abcde"), Ok(true), 0),
            (Mount, Ok(true), 0),
            (IsLong(5, 5), Ok(true), 0),
            (Do(Append(5, b"f")), Ok(true), 0),
            (Do(Cut(5, 2)), Ok(true), 0),
            (Do(Append(5, b"z")), Ok(true), 0),
            (ReadAround(5, Sync, b"abz"), Ok(true), 0),
            (IsLong(5, 3), Ok(true), 0),
        ],
    ),
    // A reading gives its file as it is when the reading ends.
    (
        "changes",
        &[
            (Do(Append(3, b"abc")), Ok(true), 0),
            (Mount, Ok(true), 0),
            (ReadAround(3, Append(3, b"de"), b"abcde"), Ok(true), 0),
            (Mount, Ok(true), 0),
            (ReadAround(3, Cut(3, 2), b"ab"), Ok(true), 0),
            (Mount, Ok(true), 0),
            (ReadAround(3, Remove(3), b""), Ok(true), 0),
            (Mount, Ok(true), 0),
            (ReadAround(3, Append(3, b"de"), b"de"), Ok(true), 0),
        ],
    ),
];

fn make<D: Disk>(disk: &mut D, change: Change) -> Result<(), DiskErr>
    ensures sync_out { D.meaning.sync_out disk.new ≡ D.meaning.sync_out disk.old }
    ensures read_out { D.meaning.read_out disk.new ≡ D.meaning.read_out disk.old }
{
    match change {
        Change::Nothing => Ok(()),
        Change::Append(f, bytes) => disk.append(FileNo(f), bytes),
        Change::Create(f) => disk.create(FileNo(f)),
        Change::Cut(f, len) => {
            if disk.sync_out().is_some() {
                return Err(DiskErr::Failed);
            }
            disk.cut(FileNo(f), len)
        }
        Change::Remove(f) => disk.remove(FileNo(f)),
        Change::Sync => disk.sync_now(),
    }
}

fn reads<D: Disk>(disk: &mut D, f: u32, at: u64, count: usize, want: &[u8]) -> Result<bool, DiskErr>
    ensures read_out { D.meaning.read_out disk.new ≡ D.meaning.read_out disk.old }
{
    let mut piece = [b'.'; 4];
    Ok(disk.read(FileNo(f), at, &mut piece)? == count && piece.as_slice() == want)
}

fn sync_around<D: Disk>(disk: &mut D, within: Change, number: u64) -> Result<bool, DiskErr> {
    let job = disk.begin_sync()?;
    let begun = (job.number(), disk.sync_out());
    let changed = make(disk, within);
    let done = job.run();
    let ended = done.number();
    disk.end_sync(done)?;
    changed?;
    Ok((begun, ended) == ((number, Some(number)), number))
}

fn give_sync_up<D: Disk>(disk: &mut D, number: u64) -> Result<bool, DiskErr> {
    disk.begin_sync()?.run().give_up();
    Ok(disk.sync_out() == Some(number))
}

fn read_around<D: Disk>(
    alloc: Global,
    disk: &mut D,
    f: u32,
    within: Change,
    want: &[u8],
) -> Result<bool, DiskErr> {
    let done = disk.read_job(FileNo(f))?.run();
    let changed = make(disk, within);
    let bytes = disk.end_read(alloc, done)?;
    let same = bytes.as_slice() == want;
    drop(bytes);
    changed?;
    Ok(same)
}

fn give_read_up<D: Disk>(disk: &mut D, number: u64) -> Result<bool, DiskErr> {
    let job = disk.read_job(FileNo(3))?;
    let begun = (job.number(), disk.read_out());
    let found = reads(disk, 3, 1, 2, b"bc..");
    let done = job.run();
    let ended = done.number();
    done.give_up();
    Ok(found? && (begun, ended) == ((number, Some(number)), number))
}

fn mount_in_sync<D: Disk>(disk: &mut D) -> Result<(), DiskErr> {
    let job = disk.begin_sync()?;
    let mounted = disk.mount();
    job.run().give_up();
    mounted
}

fn lists<D: Disk>(alloc: Global, disk: &mut D, want: &[FileNo]) -> Result<bool, DiskErr> {
    let files = disk.list(alloc)?;
    let same = files.as_slice() == want;
    drop(files);
    Ok(same)
}

fn is_long<D: Disk>(disk: &mut D, f: u32, want: u64) -> Result<bool, DiskErr> {
    Ok(disk.len(FileNo(f))? == want)
}

fn done(made: Result<(), DiskErr>) -> Result<bool, DiskErr> {
    made?;
    Ok(true)
}

fn take<D: Disk>(alloc: Global, disk: &mut D, step: Step) -> Result<bool, DiskErr> {
    match step {
        Step::Mount => done(disk.mount()),
        Step::Do(change) => done(make(disk, change)),
        Step::Lists(files) => lists(alloc, disk, files),
        Step::IsLong(f, len) => is_long(disk, f, len),
        Step::Reads(f, at, count, want) => reads(disk, f, at, count, want),
        Step::NoJob => Ok((disk.sync_out(), disk.read_out()) == (None, None)),
        Step::SyncAround(change, number) => sync_around(disk, change, number),
        Step::GiveSyncUp(number) => give_sync_up(disk, number),
        Step::ReadAround(f, change, want) => read_around(alloc, disk, f, change, want),
        Step::GiveReadUp(number) => give_read_up(disk, number),
        Step::MountInSync => done(mount_in_sync(disk)),
    }
}

/// The first step of which there does not come what is wanted.
pub fn wrong_step<D: Disk>(alloc: Global, disk: &mut D, rows: &[Row]) -> Option<usize> {
    for (at, (step, want, faults)) in rows.iter().enumerate() {
        if take(alloc, disk, *step) != *want || disk.faults() != *faults {
            return Some(at);
        }
    }
    None
}
