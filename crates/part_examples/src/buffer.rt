// A log of several files over the disk in memory: flips, a sync that is out, a resume, a tail that is written out.
ghost use Rattle.std.specs.Prelude.{◌≡◌, ◌≤◌, ◌+◌, ◌*◌, ◌^◌, true, length, IfOk};
ghost use Rattle.je_lsn.specs.Naming.{last_file};
ghost use Rattle.log_entry.specs.Body.{IsEntry};
ghost use Rattle.log_file.specs.Scan.{may_follow};

use crate::rows::first_wrong;
use Logged::{Commit, Put};
use Step::{
    Append, CommitInSync, EndsAt, Fill, IsDamaged, IsWrittenBefore, IsWrittenPast, Read, ReadFile,
    Remove, Reserve, WriteOut,
};
use je_disk::{ReadJob, SyncJob};
use je_lsn::{FileNo, Lsn};
use je_order::{Name, Octets, TxnId};
use log_buffer::{LogBuffer, LogErr};
use log_entry::Entry;
use mem_disk::MemDisk;
use std::alloc::{AllocError, Global};

// An entry that the examples append: a transaction's put of so many bytes, or its commit.
#[derive(Clone, Copy)]
enum Logged {
    Put(u64, u16),
    Commit(u64),
}

// What is done to a buffer or asked of it. A place is a file and an offset in it.
#[derive(Clone, Copy)]
enum Step {
    Reserve(&'static [u32]),
    // an entry goes to this place
    Append(Logged, u32, u32),
    // a put of 4,000 bytes goes into each file from 0 on, up to this one
    Fill(u32),
    // a commit goes to this place while a sync is out that has written the files before
    CommitInSync(u32, u32),
    WriteOut,
    // this entry stands there
    Read(Logged, u32, u32),
    IsDamaged(u32, u32),
    // the file is on the disk with so many bytes
    ReadFile(u32, usize),
    Remove(u32),
    EndsAt(u32, u32),
    // the files before this one are written whole, and no other
    IsWrittenBefore(u32),
    IsWrittenPast(u32),
}

fn sevens(alloc: Global, len: u16) -> Result<Octets, AllocError>
    ensures { IfOk result (λ value. length value ≤ 65536) }
{
    let bytes = vec![in alloc; 7; usize::from(len)]?;
    Octets::from_slice(alloc, &bytes)
}

// A put whose encoding has 14 + 16 + 4 + len bytes.
fn put(alloc: Global, txn: u64, len: u16) -> Result<Entry, AllocError>
    ensures entry { IfOk result (λ entry. IsEntry entry) }
    ensures follows { IfOk result (λ entry. may_follow entry ≡ true) }
{
    let value = sevens(alloc, len)?;
    Ok(Entry::Put {
        txn: TxnId(txn),
        db: 1,
        name: Name {
            key: Octets::from_slice(alloc, b"key!")?,
            dup: Octets::new(alloc),
        },
        value,
    })
}

fn entry_of(alloc: Global, logged: Logged) -> Result<Entry, AllocError>
    ensures entry { IfOk result (λ entry. IsEntry entry) }
    ensures follows { IfOk result (λ entry. may_follow entry ≡ true) }
{
    match logged {
        Put(txn, len) => put(alloc, txn, len),
        Commit(txn) => Ok(Entry::Commit { txn: TxnId(txn) }),
    }
}

fn is_logged(entry: &Entry, logged: Logged) -> bool {
    match (entry, logged) {
        (Entry::Put { txn, value, .. }, Put(by, len)) => {
            txn.0 == by && value.len() == usize::from(len)
        }
        (Entry::Commit { txn }, Commit(by)) => txn.0 == by,
        _ => false,
    }
}

fn at(file: u32, offset: u32) -> Lsn
    ensures { result ≡ file * 2 ^ 32 + offset }
{
    Lsn::new(FileNo(file), offset)
}

// Whether the entry goes to that place.
fn appends(
    alloc: Global,
    buffer: &mut LogBuffer<MemDisk>,
    logged: Logged,
    place: Lsn,
) -> Result<bool, LogErr> {
    let entry = entry_of(alloc, logged)?;
    let found = buffer.append(&entry);
    drop(entry);
    Ok(found? == place)
}

fn fill(alloc: Global, buffer: &mut LogBuffer<MemDisk>, files: u32) -> Result<bool, LogErr> {
    for f in 0..files {
        if !appends(alloc, buffer, Put(1, 4_000), at(f, 26))? {
            return Ok(false);
        }
    }
    Ok(true)
}

// Whether this entry stands at a place.
fn reads(
    alloc: Global,
    buffer: &mut LogBuffer<MemDisk>,
    place: Lsn,
    logged: Logged,
) -> Result<bool, LogErr> {
    let entry = buffer.read(alloc, place)?;
    let same = is_logged(&entry, logged);
    drop(entry);
    Ok(same)
}

// Whether a commit goes to that place that comes while a sync is out, which has written the files before.
fn commits_in_sync(buffer: &mut LogBuffer<MemDisk>, f: u32, offset: u32) -> Result<bool, LogErr> {
    let job = buffer.sync_begin()?;
    let written = buffer.written();
    let commit = Entry::Commit { txn: TxnId(1) };
    let appended = buffer.append(&commit);
    drop(commit);
    let done = job.run();
    buffer.sync_end(done)?;
    Ok((appended?, written) == (at(f, offset), FileNo(f)))
}

// Whether a file has so many bytes on the disk.
fn is_long(
    alloc: Global,
    buffer: &mut LogBuffer<MemDisk>,
    f: u32,
    want: usize,
) -> Result<bool, LogErr> {
    let done = buffer.read_begin(FileNo(f))?.run();
    let bytes = buffer.read_end(alloc, done)?;
    let len = bytes.len();
    drop(bytes);
    Ok(len == want)
}

fn remove(buffer: &mut LogBuffer<MemDisk>, f: u32) -> Result<bool, LogErr> {
    if f >= buffer.written().0 {
        return Ok(false);
    }
    buffer.remove(FileNo(f))?;
    Ok(true)
}

fn done(made: Result<(), LogErr>) -> Result<bool, LogErr> {
    made?;
    Ok(true)
}

// Whether the step comes as it says.
fn comes(alloc: Global, buffer: &mut LogBuffer<MemDisk>, step: Step) -> Result<bool, LogErr> {
    match step {
        Reserve(sizes) => done(buffer.reserve(sizes)),
        Append(logged, f, offset) => appends(alloc, buffer, logged, at(f, offset)),
        Fill(files) => fill(alloc, buffer, files),
        CommitInSync(f, offset) => commits_in_sync(buffer, f, offset),
        WriteOut => done(buffer.write_out()),
        Read(logged, f, offset) => reads(alloc, buffer, at(f, offset), logged),
        IsDamaged(f, offset) => {
            Ok(reads(alloc, buffer, at(f, offset), Commit(0)) == Err(LogErr::Damaged))
        }
        ReadFile(f, len) => is_long(alloc, buffer, f, len),
        Remove(f) => remove(buffer, f),
        EndsAt(f, offset) => Ok(buffer.end() == at(f, offset)),
        IsWrittenBefore(f) => Ok(buffer.written() == FileNo(f)),
        IsWrittenPast(f) => Ok(buffer.written() > FileNo(f)),
    }
}

// The first step that does not come as it says.
fn wrong_step(
    alloc: Global,
    buffer: &mut LogBuffer<MemDisk>,
    steps: &[Step],
) -> Result<Option<usize>, LogErr> {
    first_wrong(steps, |step| comes(alloc, buffer, *step))
}

// A buffer over an empty disk, whose first file has this number.
fn made(alloc: Global, file: u32) -> Result<LogBuffer<MemDisk>, AllocError>
    requires { file ≤ last_file }
{
    match LogBuffer::create(alloc, MemDisk::new(alloc), FileNo(file), 4_096) {
        Ok(buffer) => Ok(buffer),
        Err(disk) => {
            drop(disk);
            Err(AllocError)
        }
    }
}

// The disk's files: the number of each, and its length.
fn lengths(alloc: Global, disk: &MemDisk) -> Result<Vec<(u32, usize)>, AllocError> {
    let mut lengths = Vec::new(alloc);
    for (f, bytes) in &disk.files(alloc)? {
        lengths.push((f.0, bytes.len()))?;
    }
    Ok(lengths)
}

// The files that the buffer leaves on its disk.
fn close(alloc: Global, buffer: LogBuffer<MemDisk>) -> Result<Vec<(u32, usize)>, LogErr> {
    let (disk, closed) = buffer.close();
    let lengths = lengths(alloc, &disk);
    drop(disk);
    closed?;
    Ok(lengths?)
}

// Whether those are the files.
fn leaves(
    alloc: Global,
    buffer: LogBuffer<MemDisk>,
    files: &[(u32, usize)],
) -> Result<bool, LogErr> {
    let left = close(alloc, buffer)?;
    let same = left.as_slice() == files;
    drop(left);
    Ok(same)
}

// 26 + 2,034 = 2,060; 2,060 + 2,034 = 4,094 still fits in 4,096; the third put goes into file 1.
static FILES: [Step; 17] = [
    EndsAt(0, 26),
    Reserve(&[2_034, 2_034, 2_034]),
    Append(Put(1, 2_000), 0, 26),
    Append(Put(1, 2_000), 0, 2_060),
    Append(Put(1, 2_000), 1, 26),
    Read(Put(1, 2_000), 0, 26),
    Read(Put(1, 2_000), 0, 2_060),
    Read(Put(1, 2_000), 1, 26),
    EndsAt(1, 2_060),
    IsWrittenBefore(0),
    IsDamaged(1, 27),
    CommitInSync(1, 2_060),
    Read(Put(1, 2_000), 0, 26),
    Read(Put(1, 2_000), 1, 26),
    Read(Commit(1), 1, 2_060),
    ReadFile(0, 4_094),
    Remove(0),
];

// The first step that does not come so, and whether the files are then those.
fn goes_through(alloc: Global) -> Result<(Option<usize>, bool), LogErr> {
    let mut buffer = made(alloc, 0)?;
    let wrong = wrong_step(alloc, &mut buffer, &FILES);
    // 26 + 2,034 + 22
    let left = leaves(alloc, buffer, &[(1, 2_082)]);
    Ok((wrong?, left?))
}

#[test]
fn goes_through_files(rt: HostRuntime) {
    assert_eq!(rt; goes_through(rt.alloc()), Ok((None, true)));
}

// 26 + 60,034 passes 4,096, where the file holds its header alone; so the commit goes into file 4.
static WRITTEN: [Step; 4] = [
    Append(Put(2, 60_000), 3, 26),
    Append(Commit(2), 4, 26),
    WriteOut,
    EndsAt(4, 48),
];

static RESUMED: [Step; 4] = [
    Append(Commit(2), 4, 48),
    Read(Commit(2), 4, 26),
    Read(Commit(2), 4, 48),
    Read(Put(2, 60_000), 3, 26),
];

// The first step that does not come so before the resume, the first after it, and whether the files are then those.
fn goes_on(alloc: Global) -> Result<(Option<usize>, Option<usize>, bool), LogErr> {
    let mut buffer = made(alloc, 3)?;
    let wrong = wrong_step(alloc, &mut buffer, &WRITTEN);
    let mut buffer = LogBuffer::resume(alloc, buffer.into_disk(), at(4, 48), 26, 4_096);
    let then_wrong = wrong_step(alloc, &mut buffer, &RESUMED);
    // 26 + 60,034, and 26 + 22 + 22
    let left = leaves(alloc, buffer, &[(3, 60_060), (4, 70)]);
    Ok((wrong?, then_wrong?, left?))
}

#[test]
fn goes_on_after_a_resume(rt: HostRuntime) {
    assert_eq!(rt; goes_on(rt.alloc()), Ok((None, None, true)));
}

// 400 puts of 4,034 bytes, each of which fills a file, are 1,613,600 bytes: the tail is written out on
// the way.
static MANY: [Step; 4] = [
    Fill(400),
    IsWrittenPast(200),
    Read(Put(1, 4_000), 100, 26),
    Read(Put(1, 4_000), 399, 26),
];

fn are_long(files: &[(u32, usize)], want: usize) -> bool {
    let mut same = true;
    for (_, len) in files {
        same = same && *len == want;
    }
    same
}

fn goes_through_many(alloc: Global) -> Result<(Option<usize>, bool), LogErr> {
    let mut buffer = made(alloc, 0)?;
    let wrong = wrong_step(alloc, &mut buffer, &MANY);
    let files = close(alloc, buffer)?;
    let long = files.len() == 400 && are_long(&files, 4_060);
    drop(files);
    Ok((wrong?, long))
}

#[test]
fn writes_a_long_tail_out(rt: HostRuntime) {
    assert_eq!(rt; goes_through_many(rt.alloc()), Ok((None, true)));
}
