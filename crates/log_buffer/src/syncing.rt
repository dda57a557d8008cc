// Syncs, and the end of a buffer.
ghost use Rattle.std.specs.Prelude.{◌≡◌, ◌≤◌, [], ℕ, List, true, false, Option, Some, None, length, OnOk, OnErr, IfOk, IsErrOf};
ghost use Rattle.je_order.specs.Counts.{HasRisen};
ghost use Rattle.je_disk.specs.Moments.{now, Passes};
ghost use Rattle.je_disk.specs.States.{synced, synced_crash_states, IsEither};
ghost use Rattle.log_file.specs.Log.{Log, entries_of};
ghost use Rattle.log_buffer.specs.Buffer.{disk_of, first_of, end_of, last_of, file_max_of, has_failed, HasRoom, IsWritten, KeepsUnwritten};
ghost use Rattle.log_buffer.specs.Log.{HasLog, ReadAs};
ghost use Rattle.log_buffer.specs.Crash.{KeepsRead, Holds, KeptThrough};
ghost use Rattle.log_buffer.specs.Growth.{SameJobs};
ghost use Rattle.log_buffer.specs.Causes.{HasLogCause, FailsByFault};

use crate::{LogBuffer, LogErr};
use je_disk::{Disk, SyncDone, SyncJob};

impl<D: Disk> LogBuffer<D> {
    /// Writes the write buffer out and begins a sync, which makes stable all that was appended
    /// before. A sync job that is out is given up.
    pub fn sync_begin(&mut self) -> Result<D::Job, LogErr>
        ensures begun { IfOk result (λ job. D.meaning.sync_out (disk_of self.new) ≡ Some (D.Job.job_number job)) }
        ensures written { OnOk result (IsWritten self.new) }
        ensures log { (log : Log) → HasLog D.meaning.observable (now (D.meaning.history (disk_of self.old))) self.old log → OnOk result (HasLog D.meaning.observable (now (D.meaning.history (disk_of self.new))) self.new log) }
        ensures whole { (log : Log) → HasLog D.meaning.observable (now (D.meaning.history (disk_of self.old))) self.old log → OnOk result (ReadAs D.meaning.observable (now (D.meaning.history (disk_of self.new))).reads log) }
        ensures crash { D.meaning.observable ≡ true → (log removed : Log) (least : ℕ) (begun : Option ℕ) → HasLog D.meaning.observable (now (D.meaning.history (disk_of self.old))) self.old log → Holds log removed least begun (first_of self.old) (now (D.meaning.history (disk_of self.old)))
            → KeptThrough (D.meaning.history (disk_of self.old)) (D.meaning.history (disk_of self.new)) log removed least }
        ensures holds { D.meaning.observable ≡ true → (log removed : Log) (least : ℕ) (begun : Option ℕ) → HasLog D.meaning.observable (now (D.meaning.history (disk_of self.old))) self.old log → Holds log removed least begun (first_of self.old) (now (D.meaning.history (disk_of self.old)))
            → OnOk result (Holds log removed least (Some (length (entries_of log))) (first_of self.new) (now (D.meaning.history (disk_of self.new)))) }
        ensures end { end_of self.new ≡ end_of self.old }
        ensures last { last_of self.new ≡ last_of self.old }
        ensures room { (sizes : List ℕ) → HasRoom self.old sizes → OnOk result (HasRoom self.new sizes) }
        ensures file_max { file_max_of self.new ≡ file_max_of self.old }
        ensures by_fault { FailsByFault result }
        ensures cause { HasLogCause (has_failed self.old) (has_failed self.new) (D.meaning.faults (disk_of self.old)) (D.meaning.faults (disk_of self.new)) result }
        ensures still { has_failed self.old ≡ true → disk_of self.new ≡ disk_of self.old }
        ensures read_out { D.meaning.read_out (disk_of self.new) ≡ D.meaning.read_out (disk_of self.old) }
        ensures read_of { D.meaning.read_of (disk_of self.new) ≡ D.meaning.read_of (disk_of self.old) }
    {
        self.write_out()?;
        self.failed = true;
        match self.disk.begin_sync() {
            Ok(job) => {
                self.failed = false;
                Ok(job)
            }
            Err(_) => Err(LogErr::Fault),
        }
    }

    /// Ends the sync that is out. Entries may have been appended since it began. A buffer that has failed
    /// gives the job up.
    pub fn sync_end(&mut self, done: <D::Job as SyncJob>::Done) -> Result<(), LogErr>
        requires { D.meaning.sync_out (disk_of self.old) ≡ Some (D.Job.Done.done_number done) }
        ensures none_out { has_failed self.old ≡ false → D.meaning.sync_out (disk_of self.new) ≡ None }
        ensures log { (log : Log) → HasLog D.meaning.observable (now (D.meaning.history (disk_of self.old))) self.old log → OnOk result (HasLog D.meaning.observable (now (D.meaning.history (disk_of self.new))) self.new log) }
        ensures crash { D.meaning.observable ≡ true → (log removed : Log) (least : ℕ) (begun : ℕ) → HasLog D.meaning.observable (now (D.meaning.history (disk_of self.old))) self.old log → Holds log removed least (Some begun) (first_of self.old) (now (D.meaning.history (disk_of self.old)))
            → KeptThrough (D.meaning.history (disk_of self.old)) (D.meaning.history (disk_of self.new)) log removed least }
        ensures holds { D.meaning.observable ≡ true → (log removed : Log) (least : ℕ) (begun : ℕ) → HasLog D.meaning.observable (now (D.meaning.history (disk_of self.old))) self.old log → Holds log removed least (Some begun) (first_of self.old) (now (D.meaning.history (disk_of self.old)))
            → OnOk result (Holds log removed begun None (first_of self.new) (now (D.meaning.history (disk_of self.new)))) }
        ensures kept { KeepsUnwritten self.old self.new }
        ensures by_fault { FailsByFault result }
        ensures cause { HasLogCause (has_failed self.old) (has_failed self.new) (D.meaning.faults (disk_of self.old)) (D.meaning.faults (disk_of self.new)) result }
        ensures still { has_failed self.old ≡ true → disk_of self.new ≡ disk_of self.old }
        ensures read_out { D.meaning.read_out (disk_of self.new) ≡ D.meaning.read_out (disk_of self.old) }
        ensures read_of { D.meaning.read_of (disk_of self.new) ≡ D.meaning.read_of (disk_of self.old) }
    {
        if self.failed {
            done.give_up();
            return Err(LogErr::Fault);
        }
        self.failed = true;
        match self.disk.end_sync(done) {
            Ok(()) => {
                self.failed = false;
                Ok(())
            }
            Err(_) => Err(LogErr::Fault),
        }
    }

    /// Writes the write buffer out and syncs, and gives the disk back, which a buffer that has failed
    /// does not touch.
    pub fn close(self) -> (D, Result<(), LogErr>)
        ensures whole { (log : Log) → HasLog D.meaning.observable (now (D.meaning.history (disk_of self))) self log → OnOk result.1 (ReadAs D.meaning.observable (now (D.meaning.history result.0)).reads log) }
        ensures stable { D.meaning.observable ≡ true → OnOk result.1 ((now (D.meaning.history result.0)).crash_states ≡ synced_crash_states (now (D.meaning.history result.0)).reads) }
        ensures crash { D.meaning.observable ≡ true → (log removed : Log) (least : ℕ) (begun : Option ℕ) → HasLog D.meaning.observable (now (D.meaning.history (disk_of self))) self log → Holds log removed least begun (first_of self) (now (D.meaning.history (disk_of self)))
            → KeptThrough (D.meaning.history (disk_of self)) (D.meaning.history result.0) log removed least }
        ensures kept { D.meaning.observable ≡ true → (log : Log) → HasLog D.meaning.observable (now (D.meaning.history (disk_of self))) self log → OnOk result.1 (KeepsRead log [] (length (entries_of log)) (now (D.meaning.history result.0))) }
        ensures by_fault { FailsByFault result.1 }
        ensures never_falls { D.meaning.faults (disk_of self) ≤ D.meaning.faults result.0 }
        ensures fault { has_failed self ≡ false → OnErr result.1 (HasRisen (D.meaning.faults (disk_of self)) (D.meaning.faults result.0)) }
        ensures failed { has_failed self ≡ true → IsErrOf result.1 LogErr.Fault }
        ensures still { has_failed self ≡ true → result.0 ≡ disk_of self }
        ensures jobs { SameJobs D.meaning (disk_of self) result.0 }
    {
        let mut buffer = self;
        let written = buffer.write_out();
        let mut disk = buffer.into_disk();
        if written.is_err() {
            return (disk, written);
        }
        let done = sync(&mut disk);
        (disk, done)
    }
}

// Makes stable what the files read as.
fn sync<D: Disk>(disk: &mut D) -> Result<(), LogErr>
    ensures done { D.meaning.observable ≡ true → OnOk result (now (D.meaning.history disk.new) ≡ synced (now (D.meaning.history disk.old))) }
    ensures moments { D.meaning.observable ≡ true → Passes (D.meaning.history disk.old) (D.meaning.history disk.new) (IsEither (now (D.meaning.history disk.old)) (synced (now (D.meaning.history disk.old)))) }
    ensures by_fault { FailsByFault result }
    ensures never_falls { D.meaning.faults disk.old ≤ D.meaning.faults disk.new }
    ensures fault { OnErr result (HasRisen (D.meaning.faults disk.old) (D.meaning.faults disk.new)) }
    ensures sync_out { D.meaning.sync_out disk.new ≡ D.meaning.sync_out disk.old }
    ensures read_out { D.meaning.read_out disk.new ≡ D.meaning.read_out disk.old }
    ensures read_of { D.meaning.read_of disk.new ≡ D.meaning.read_of disk.old }
{
    match disk.sync_now() {
        Ok(()) => Ok(()),
        Err(_) => Err(LogErr::Fault),
    }
}
