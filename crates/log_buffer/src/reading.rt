// What is read of the log, and files that go.
ghost use Rattle.std.specs.Prelude.{◌≡◌, ◌≤◌, ◌<◌, ◌+◌, ◌*◌, ◌^◌, ◌-◌, ◌==◌, ◌↔◌, ◌⊎◌, ℕ, [], true, false, Option, Some, None, drop, length, option_map, ◌++◌, if◌then◌else◌, IsTrue, OnOk, OnErr, IfOk, IsErrOf};
ghost use Rattle.je_disk.specs.Moments.{now, Passes};
ghost use Rattle.je_disk.specs.States.{content};
ghost use Rattle.log_entry.specs.declared.entry.Entry.{Entry as Appended};
ghost use Rattle.log_file.specs.Log.{Log, entries_of};
ghost use Rattle.log_buffer.specs.Buffer.{disk_of, end_of, file_of, first_of, flushed_len_of, has_failed, unwritten_of, written_of, KeepsUnwritten};
ghost use Rattle.log_buffer.specs.Flip.{pos_lsn};
ghost use Rattle.log_buffer.specs.Log.{HasLog, Encodes, StandsAt, log_without, log_of, log_upto};
ghost use Rattle.log_buffer.specs.Reads.{IsOnlyRead};
ghost use Rattle.log_buffer.specs.Crash.{Holds, KeepsLog, KeptThrough};
ghost use Rattle.log_buffer.specs.Causes.{HasLogCause, FailsByFault};

use crate::fetching::{entry_at, entry_in};
use crate::{LogBuffer, LogErr};
use je_disk::{Disk, DiskErr, ReadDone, ReadJob};
use je_lsn::{FileNo, Lsn};
use log_entry::Entry;
use std::alloc::{AllocError, Global};

impl<D: Disk> LogBuffer<D> {
    /// The entry at a place of the log. Of a file it reads 14 bytes, and then the entry.
    /// At a place where no entry of the log stands it answers Damaged, or what entry can be read there.
    pub fn read(&mut self, alloc: Global, at: Lsn) -> Result<Entry, LogErr>
        ensures found { (log : Log) (entry : Appended) → D.meaning.observable ≡ true → HasLog D.meaning.observable (now (D.meaning.history (disk_of self.old))) self.old log → StandsAt log at entry
            → IfOk result (λ found. found ≡ entry) }
        ensures undamaged { (log : Log) (entry : Appended) → D.meaning.observable ≡ true → HasLog D.meaning.observable (now (D.meaning.history (disk_of self.old))) self.old log → StandsAt log at entry
            → IsErrOf result LogErr.Damaged → ⊥ }
        ensures log { (log : Log) → HasLog D.meaning.observable (now (D.meaning.history (disk_of self.old))) self.old log → HasLog D.meaning.observable (now (D.meaning.history (disk_of self.new))) self.new log }
        ensures same { D.meaning.observable ≡ true → now (D.meaning.history (disk_of self.new)) ≡ now (D.meaning.history (disk_of self.old)) }
        ensures moments { D.meaning.observable ≡ true → Passes (D.meaning.history (disk_of self.old)) (D.meaning.history (disk_of self.new)) (λ s. s ≡ now (D.meaning.history (disk_of self.old))) }
        ensures crash { D.meaning.observable ≡ true → (log removed : Log) (least : ℕ) (begun : Option ℕ) → HasLog D.meaning.observable (now (D.meaning.history (disk_of self.old))) self.old log → Holds log removed least begun (first_of self.old) (now (D.meaning.history (disk_of self.old)))
            → KeptThrough (D.meaning.history (disk_of self.old)) (D.meaning.history (disk_of self.new)) log removed least }
        ensures holds { D.meaning.observable ≡ true → (log removed : Log) (least : ℕ) (begun : Option ℕ) → HasLog D.meaning.observable (now (D.meaning.history (disk_of self.old))) self.old log → Holds log removed least begun (first_of self.old) (now (D.meaning.history (disk_of self.old)))
            → Holds log removed least begun (first_of self.new) (now (D.meaning.history (disk_of self.new))) }
        ensures kept { KeepsUnwritten self.old self.new }
        ensures not_full { IsErrOf result LogErr.Full → ⊥ }
        ensures cause { HasLogCause (has_failed self.old) (has_failed self.new) (D.meaning.faults (disk_of self.old)) (D.meaning.faults (disk_of self.new)) result }
        ensures still { has_failed self.old ≡ true → disk_of self.new ≡ disk_of self.old }
        ensures sync_out { D.meaning.sync_out (disk_of self.new) ≡ D.meaning.sync_out (disk_of self.old) }
        ensures read_out { D.meaning.read_out (disk_of self.new) ≡ D.meaning.read_out (disk_of self.old) }
        ensures read_of { D.meaning.read_of (disk_of self.new) ≡ D.meaning.read_of (disk_of self.old) }
    {
        self.look(alloc, at)?.ok_or(LogErr::Damaged)
    }

    // The entry at a place of the log, where one can be read there.
    fn look(&mut self, alloc: Global, at: Lsn) -> Result<Option<Entry>, LogErr>
        ensures found { (log : Log) (entry : Appended) → D.meaning.observable ≡ true → HasLog D.meaning.observable (now (D.meaning.history (disk_of self.old))) self.old log → StandsAt log at entry
            → IfOk result (λ found. found ≡ Some entry) }
        ensures only_read { IsOnlyRead D.meaning (disk_of self.old) (disk_of self.new) }
        ensures kept { KeepsUnwritten self.old self.new }
        ensures not_full { IsErrOf result LogErr.Full → ⊥ }
        ensures not_damaged { IsErrOf result LogErr.Damaged → ⊥ }
        ensures cause { HasLogCause (has_failed self.old) (has_failed self.new) (D.meaning.faults (disk_of self.old)) (D.meaning.faults (disk_of self.new)) result }
        ensures still { has_failed self.old ≡ true → disk_of self.new ≡ disk_of self.old }
    {
        if self.failed {
            return Err(LogErr::Fault);
        }
        let file = at.file();
        let offset = at.offset();
        if self.is_on_disk(file, offset) {
            return self.fetch(alloc, file, offset);
        }
        let within = self.within_unwritten(file, offset);
        let found = self.find(alloc, file, within)?;
        Ok(found)
    }

    // The file at whose end the write buffer's bytes begin.
    fn first(&self) -> u32
        ensures { result ≡ first_of self.now }
    {
        self.file.0 - self.unwritten.files() as u32
    }

    // Whether a place of the log is on the disk; else it is in the write buffer.
    fn is_on_disk(&self, f: FileNo, offset: u32) -> bool
        ensures { IsTrue result ↔ (f.0 < written_of self.now) ⊎ ((f.0 ≡ first_of self.now) × (offset < flushed_len_of self.now)) }
    {
        f.0 < self.written().0 || (f.0 == self.first() && offset < self.flushed_len)
    }

    // The entry at a place of a file.
    fn fetch(&mut self, alloc: Global, f: FileNo, offset: u32) -> Result<Option<Entry>, LogErr>
        requires { has_failed self.old ≡ false }
        ensures found { (entry : Appended) → D.meaning.observable ≡ true → Encodes (drop offset (content (now (D.meaning.history (disk_of self.old))).reads f.0)) entry → IfOk result (λ found. found ≡ Some entry) }
        ensures only_read { IsOnlyRead D.meaning (disk_of self.old) (disk_of self.new) }
        ensures kept { KeepsUnwritten self.old self.new }
        ensures not_full { IsErrOf result LogErr.Full → ⊥ }
        ensures not_damaged { IsErrOf result LogErr.Damaged → ⊥ }
        ensures cause { HasLogCause (has_failed self.old) (has_failed self.new) (D.meaning.faults (disk_of self.old)) (D.meaning.faults (disk_of self.new)) result }
    {
        match entry_at(alloc, &mut self.disk, f, offset) {
            Ok(found) => Ok(found),
            Err(error) => Err(map_err(&mut self.failed, error)),
        }
    }

    // How far into the write buffer's bytes for a file an offset of the file is.
    fn within_unwritten(&self, f: FileNo, offset: u32) -> u32
        ensures { result ≡ (if f.0 == first_of self.now then offset - flushed_len_of self.now else offset) }
    {
        if f.0 == self.first() {
            offset.saturating_sub(self.flushed_len)
        } else {
            offset
        }
    }

    // The entry at a place of the write buffer's bytes for a file.
    fn find(&self, alloc: Global, f: FileNo, at: u32) -> Result<Option<Entry>, AllocError>
        requires { first_of self.now ≤ f.0 }
        ensures { (entry : Appended) → f.0 ≤ file_of self.now → Encodes (drop at (unwritten_of self.now f.0)) entry → IfOk result (λ found. found ≡ Some entry) }
    {
        if f.0 > self.file.0 {
            return Ok(None);
        }
        let bytes = self.unwritten.piece((f.0 - self.first()) as usize);
        if at as usize > bytes.len() {
            return Ok(None);
        }
        entry_in(alloc, bytes, at as usize)
    }

    /// Begins to read a whole file as it is on the disk. A read job that is out is given up.
    pub fn read_begin(&mut self, f: FileNo) -> Result<D::ReadJob, LogErr>
        ensures begun { IfOk result (λ job. D.meaning.read_out (disk_of self.new) ≡ Some (D.ReadJob.job_number job)) }
        ensures read_of { OnOk result (D.meaning.read_of (disk_of self.new) ≡ f.0) }
        ensures none_out { has_failed self.old ≡ false → OnErr result (D.meaning.read_out (disk_of self.new) ≡ None) }
        ensures log { (log : Log) → HasLog D.meaning.observable (now (D.meaning.history (disk_of self.old))) self.old log → HasLog D.meaning.observable (now (D.meaning.history (disk_of self.new))) self.new log }
        ensures same { D.meaning.observable ≡ true → now (D.meaning.history (disk_of self.new)) ≡ now (D.meaning.history (disk_of self.old)) }
        ensures moments { D.meaning.observable ≡ true → Passes (D.meaning.history (disk_of self.old)) (D.meaning.history (disk_of self.new)) (λ s. s ≡ now (D.meaning.history (disk_of self.old))) }
        ensures crash { D.meaning.observable ≡ true → (log removed : Log) (least : ℕ) (begun : Option ℕ) → HasLog D.meaning.observable (now (D.meaning.history (disk_of self.old))) self.old log → Holds log removed least begun (first_of self.old) (now (D.meaning.history (disk_of self.old)))
            → KeptThrough (D.meaning.history (disk_of self.old)) (D.meaning.history (disk_of self.new)) log removed least }
        ensures holds { D.meaning.observable ≡ true → (log removed : Log) (least : ℕ) (begun : Option ℕ) → HasLog D.meaning.observable (now (D.meaning.history (disk_of self.old))) self.old log → Holds log removed least begun (first_of self.old) (now (D.meaning.history (disk_of self.old)))
            → Holds log removed least begun (first_of self.new) (now (D.meaning.history (disk_of self.new))) }
        ensures kept { KeepsUnwritten self.old self.new }
        ensures by_fault { FailsByFault result }
        ensures cause { HasLogCause (has_failed self.old) (has_failed self.new) (D.meaning.faults (disk_of self.old)) (D.meaning.faults (disk_of self.new)) result }
        ensures still { has_failed self.old ≡ true → disk_of self.new ≡ disk_of self.old }
        ensures sync_out { D.meaning.sync_out (disk_of self.new) ≡ D.meaning.sync_out (disk_of self.old) }
    {
        if self.failed {
            return Err(LogErr::Fault);
        }
        self.failed = true;
        match self.disk.read_job(f) {
            Ok(job) => {
                self.failed = false;
                Ok(job)
            }
            Err(_) => Err(LogErr::Fault),
        }
    }

    /// Ends the reading that is out, with the bytes of its file as they are on the disk now. A buffer that
    /// has failed gives the job up.
    pub fn read_end(
        &mut self,
        alloc: Global,
        done: <D::ReadJob as ReadJob>::Done,
    ) -> Result<Vec<u8>, LogErr>
        requires { D.meaning.read_out (disk_of self.old) ≡ Some (D.ReadJob.Done.done_number done) }
        ensures bytes { D.meaning.observable ≡ true → IfOk result (λ bytes. bytes.items ≡ content (now (D.meaning.history (disk_of self.old))).reads (D.meaning.read_of (disk_of self.old))) }
        ensures none_out { has_failed self.old ≡ false → D.meaning.read_out (disk_of self.new) ≡ None }
        ensures log { (log : Log) → HasLog D.meaning.observable (now (D.meaning.history (disk_of self.old))) self.old log → HasLog D.meaning.observable (now (D.meaning.history (disk_of self.new))) self.new log }
        ensures same { D.meaning.observable ≡ true → now (D.meaning.history (disk_of self.new)) ≡ now (D.meaning.history (disk_of self.old)) }
        ensures moments { D.meaning.observable ≡ true → Passes (D.meaning.history (disk_of self.old)) (D.meaning.history (disk_of self.new)) (λ s. s ≡ now (D.meaning.history (disk_of self.old))) }
        ensures crash { D.meaning.observable ≡ true → (log removed : Log) (least : ℕ) (begun : Option ℕ) → HasLog D.meaning.observable (now (D.meaning.history (disk_of self.old))) self.old log → Holds log removed least begun (first_of self.old) (now (D.meaning.history (disk_of self.old)))
            → KeptThrough (D.meaning.history (disk_of self.old)) (D.meaning.history (disk_of self.new)) log removed least }
        ensures holds { D.meaning.observable ≡ true → (log removed : Log) (least : ℕ) (begun : Option ℕ) → HasLog D.meaning.observable (now (D.meaning.history (disk_of self.old))) self.old log → Holds log removed least begun (first_of self.old) (now (D.meaning.history (disk_of self.old)))
            → Holds log removed least begun (first_of self.new) (now (D.meaning.history (disk_of self.new))) }
        ensures kept { KeepsUnwritten self.old self.new }
        ensures not_full { IsErrOf result LogErr.Full → ⊥ }
        ensures not_damaged { IsErrOf result LogErr.Damaged → ⊥ }
        ensures cause { HasLogCause (has_failed self.old) (has_failed self.new) (D.meaning.faults (disk_of self.old)) (D.meaning.faults (disk_of self.new)) result }
        ensures still { has_failed self.old ≡ true → disk_of self.new ≡ disk_of self.old }
        ensures sync_out { D.meaning.sync_out (disk_of self.new) ≡ D.meaning.sync_out (disk_of self.old) }
    {
        if self.failed {
            done.give_up();
            return Err(LogErr::Fault);
        }
        match self.disk.end_read(alloc, done) {
            Ok(bytes) => Ok(bytes),
            Err(error) => Err(map_err(&mut self.failed, error)),
        }
    }

    /// Takes a file that is written whole out of the log, and off the disk.
    pub fn remove(&mut self, f: FileNo) -> Result<(), LogErr>
        requires { f.0 < written_of self.old }
        ensures log { (log : Log) → HasLog D.meaning.observable (now (D.meaning.history (disk_of self.old))) self.old log → OnOk result (HasLog D.meaning.observable (now (D.meaning.history (disk_of self.new))) self.new (log_without f.0 log)) }
        ensures crash { D.meaning.observable ≡ true → (log removed : Log) (least : ℕ) (begun : Option ℕ) → HasLog D.meaning.observable (now (D.meaning.history (disk_of self.old))) self.old log → Holds log removed least begun (first_of self.old) (now (D.meaning.history (disk_of self.old)))
            → length (entries_of (log_upto f.0 log)) < least
            → Passes (D.meaning.history (disk_of self.old)) (D.meaning.history (disk_of self.new)) (λ s. KeepsLog (log_without f.0 log) (log_of f.0 log ++ removed) (least - length (entries_of (log_of f.0 log))) s.crash_states) }
        ensures holds { D.meaning.observable ≡ true → (log removed : Log) (least : ℕ) (begun : Option ℕ) → HasLog D.meaning.observable (now (D.meaning.history (disk_of self.old))) self.old log → Holds log removed least begun (first_of self.old) (now (D.meaning.history (disk_of self.old)))
            → length (entries_of (log_upto f.0 log)) < least
            → OnOk result (Holds (log_without f.0 log) (log_of f.0 log ++ removed) (least - length (entries_of (log_of f.0 log))) (option_map (λ n. n - length (entries_of (log_of f.0 log))) begun) (first_of self.new) (now (D.meaning.history (disk_of self.new)))) }
        ensures kept { KeepsUnwritten self.old self.new }
        ensures by_fault { FailsByFault result }
        ensures cause { HasLogCause (has_failed self.old) (has_failed self.new) (D.meaning.faults (disk_of self.old)) (D.meaning.faults (disk_of self.new)) result }
        ensures still { has_failed self.old ≡ true → disk_of self.new ≡ disk_of self.old }
        ensures sync_out { D.meaning.sync_out (disk_of self.new) ≡ D.meaning.sync_out (disk_of self.old) }
        ensures read_out { D.meaning.read_out (disk_of self.new) ≡ D.meaning.read_out (disk_of self.old) }
        ensures read_of { D.meaning.read_of (disk_of self.new) ≡ D.meaning.read_of (disk_of self.old) }
    {
        if self.failed {
            return Err(LogErr::Fault);
        }
        self.failed = true;
        match self.disk.remove(f) {
            Ok(()) => {
                self.failed = false;
                Ok(())
            }
            Err(_) => Err(LogErr::Fault),
        }
    }

    /// Where the next entry goes, if it goes into the last file.
    pub fn end(&self) -> Lsn
        ensures { result ≡ pos_lsn (end_of self.now) }
    {
        Lsn::new(self.file, self.offset)
    }

    /// The file of the write buffer's first byte, with an empty write buffer the last file. The
    /// files below it are written whole.
    pub fn written(&self) -> FileNo
        ensures value { result.0 ≡ written_of self.now }
        ensures below { (f : ℕ) → f < result.0 → unwritten_of self.now f ≡ [] }
        ensures only { unwritten_of self.now result.0 ≡ [] → result.0 ≡ file_of self.now }
    {
        let first = self.first();
        if self.unwritten.begins_first() {
            FileNo(first + 1)
        } else {
            FileNo(first)
        }
    }

    /// The disk below, as it is without the write buffer.
    pub fn disk(&self) -> &D
        ensures { result.now ≡ disk_of self.now }
    {
        &self.disk
    }

    /// Whether a call met a fault of the disk.
    pub fn has_failed(&self) -> bool
        ensures { result ≡ has_failed self.now }
    {
        self.failed
    }
}

// An error of the disk as a buffer answers it; at a fault the buffer has failed.
fn map_err(failed: &mut bool, error: DiskErr) -> LogErr
    ensures memory { error ≡ DiskErr.Memory → (result ≡ LogErr.Memory) × (failed.new ≡ failed.old) }
    ensures fault { error ≡ DiskErr.Failed → (result ≡ LogErr.Fault) × (failed.new ≡ true) }
{
    match error {
        DiskErr::Memory => LogErr::Memory,
        DiskErr::Failed => {
            *failed = true;
            LogErr::Fault
        }
    }
}
