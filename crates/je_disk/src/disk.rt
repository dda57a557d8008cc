// The trait of disks.
ghost use Rattle.std.specs.Prelude.{◌≡◌, ◌≤◌, ◌+◌, ◌++◌, Some, None, true, length, take, drop, min, IfOk, OnOk, OnErr};
ghost use Rattle.je_disk.specs.States.{content, created, appended, cut, removed, synced, job_begun, job_ended, IsEither, IsPartOfAppend, IsListing, AreRisingNumbers};
ghost use Rattle.je_disk.specs.Moments.{now, Passes};
ghost use Rattle.je_disk.specs.Causes.{HasFault, HasCause};
ghost use Rattle.je_disk.specs.DiskMeaning.{DiskMeaning};

use crate::DiskErr;
use crate::job::{ReadJob, SyncJob};
use je_lsn::FileNo;
use std::alloc::Global;

/// A folder of log files, each a string of bytes under a number. Where `meaning.observable` is true,
/// `meaning.history` has the disk's state at each moment so far. A call that fails leaves the disk at one
/// of the states that `moments` allows; in `read` the piece then holds anything.
///
/// One sync job and one read job can be out at a time, and every disk says which are. A job that was
/// given up can still run, but what comes of it can no longer be ended. Jobs of both kinds get their
/// numbers from one count, from 1 on.
pub trait Disk {
    /// A sync that was begun.
    type Job: SyncJob;

    /// The reading of a file that was begun.
    type ReadJob: ReadJob;

    /// What contracts see of a disk: whether it is observable, its states so far, its faults and its jobs.
    ghost meaning: { DiskMeaning Self };

    /// Makes the disk ready, and gives up the jobs that are out. A folder that is not there is no
    /// fault: it then has no files.
    fn mount(&mut self) -> Result<(), DiskErr>
        ensures same { meaning.observable ≡ true → now (meaning.history self.new) ≡ now (meaning.history self.old) }
        ensures moments { meaning.observable ≡ true → Passes (meaning.history self.old) (meaning.history self.new) (λ s. s ≡ now (meaning.history self.old)) }
        ensures sync_out { meaning.sync_out self.new ≡ None }
        ensures read_out { meaning.read_out self.new ≡ None }
        ensures last_job { meaning.last_job self.new ≡ meaning.last_job self.old }
        ensures cause { HasFault (meaning.faults self.old) (meaning.faults self.new) result };

    /// The numbers of the files that are there, rising. Files of other names are left out. This call
    /// and `end_read` alone answer Memory.
    fn list(&mut self, alloc: Global) -> Result<Vec<FileNo>, DiskErr>
        ensures rising { IfOk result (λ files. AreRisingNumbers files.items) }
        ensures listed { meaning.observable ≡ true → IfOk result (λ files. IsListing (now (meaning.history self.old)).reads files.items) }
        ensures same { meaning.observable ≡ true → now (meaning.history self.new) ≡ now (meaning.history self.old) }
        ensures moments { meaning.observable ≡ true → Passes (meaning.history self.old) (meaning.history self.new) (λ s. s ≡ now (meaning.history self.old)) }
        ensures sync_out { meaning.sync_out self.new ≡ meaning.sync_out self.old }
        ensures read_out { meaning.read_out self.new ≡ meaning.read_out self.old }
        ensures read_of { meaning.read_of self.new ≡ meaning.read_of self.old }
        ensures last_job { meaning.last_job self.new ≡ meaning.last_job self.old }
        ensures cause { HasCause (meaning.faults self.old) (meaning.faults self.new) result };

    /// How many bytes a file has; 0 where it is not there.
    fn len(&mut self, f: FileNo) -> Result<u64, DiskErr>
        ensures length { meaning.observable ≡ true → IfOk result (λ n. n ≡ length (content (now (meaning.history self.old)).reads f.0)) }
        ensures same { meaning.observable ≡ true → now (meaning.history self.new) ≡ now (meaning.history self.old) }
        ensures moments { meaning.observable ≡ true → Passes (meaning.history self.old) (meaning.history self.new) (λ s. s ≡ now (meaning.history self.old)) }
        ensures sync_out { meaning.sync_out self.new ≡ meaning.sync_out self.old }
        ensures read_out { meaning.read_out self.new ≡ meaning.read_out self.old }
        ensures read_of { meaning.read_of self.new ≡ meaning.read_of self.old }
        ensures last_job { meaning.last_job self.new ≡ meaning.last_job self.old }
        ensures cause { HasFault (meaning.faults self.old) (meaning.faults self.new) result };

    /// Makes an empty file, and changes nothing where the file is there.
    fn create(&mut self, f: FileNo) -> Result<(), DiskErr>
        ensures done { meaning.observable ≡ true → OnOk result (now (meaning.history self.new) ≡ created f.0 (now (meaning.history self.old))) }
        ensures moments { meaning.observable ≡ true → Passes (meaning.history self.old) (meaning.history self.new) (IsEither (now (meaning.history self.old)) (created f.0 (now (meaning.history self.old)))) }
        ensures sync_out { meaning.sync_out self.new ≡ meaning.sync_out self.old }
        ensures read_out { meaning.read_out self.new ≡ meaning.read_out self.old }
        ensures read_of { meaning.read_of self.new ≡ meaning.read_of self.old }
        ensures last_job { meaning.last_job self.new ≡ meaning.last_job self.old }
        ensures cause { HasFault (meaning.faults self.old) (meaning.faults self.new) result };

    /// Puts bytes at the end of a file, and makes the file where it is not there. A call that fails may
    /// leave some of them there, from the first one on. The disk may set room aside behind them, up to the next
    /// multiple of `EXTENSION`: a crash may leave the file so long.
    fn append(&mut self, f: FileNo, bytes: &[u8]) -> Result<(), DiskErr>
        ensures done { meaning.observable ≡ true → OnOk result (now (meaning.history self.new) ≡ appended f.0 bytes.now (now (meaning.history self.old))) }
        ensures moments { meaning.observable ≡ true → Passes (meaning.history self.old) (meaning.history self.new) (IsPartOfAppend f.0 bytes.now (now (meaning.history self.old))) }
        ensures sync_out { meaning.sync_out self.new ≡ meaning.sync_out self.old }
        ensures read_out { meaning.read_out self.new ≡ meaning.read_out self.old }
        ensures read_of { meaning.read_of self.new ≡ meaning.read_of self.old }
        ensures last_job { meaning.last_job self.new ≡ meaning.last_job self.old }
        ensures cause { HasFault (meaning.faults self.old) (meaning.faults self.new) result };

    /// Cuts a file to a length, while no sync job is out. It changes nothing where the file is not
    /// longer, or is not there.
    fn cut(&mut self, f: FileNo, len: u64) -> Result<(), DiskErr>
        requires { meaning.sync_out self.old ≡ None }
        ensures done { meaning.observable ≡ true → OnOk result (now (meaning.history self.new) ≡ cut f.0 len (now (meaning.history self.old))) }
        ensures moments { meaning.observable ≡ true → Passes (meaning.history self.old) (meaning.history self.new) (IsEither (now (meaning.history self.old)) (cut f.0 len (now (meaning.history self.old)))) }
        ensures sync_out { meaning.sync_out self.new ≡ meaning.sync_out self.old }
        ensures read_out { meaning.read_out self.new ≡ meaning.read_out self.old }
        ensures read_of { meaning.read_of self.new ≡ meaning.read_of self.old }
        ensures last_job { meaning.last_job self.new ≡ meaning.last_job self.old }
        ensures cause { HasFault (meaning.faults self.old) (meaning.faults self.new) result };

    /// Takes a file away, and changes nothing where it is not there.
    fn remove(&mut self, f: FileNo) -> Result<(), DiskErr>
        ensures done { meaning.observable ≡ true → OnOk result (now (meaning.history self.new) ≡ removed f.0 (now (meaning.history self.old))) }
        ensures moments { meaning.observable ≡ true → Passes (meaning.history self.old) (meaning.history self.new) (IsEither (now (meaning.history self.old)) (removed f.0 (now (meaning.history self.old)))) }
        ensures sync_out { meaning.sync_out self.new ≡ meaning.sync_out self.old }
        ensures read_out { meaning.read_out self.new ≡ meaning.read_out self.old }
        ensures read_of { meaning.read_of self.new ≡ meaning.read_of self.old }
        ensures last_job { meaning.last_job self.new ≡ meaning.last_job self.old }
        ensures cause { HasFault (meaning.faults self.old) (meaning.faults self.new) result };

    /// Reads a file's bytes from the offset `at` into the front of a piece, and answers how many: the
    /// whole piece, or fewer where the file ends; none where the file is not there.
    fn read(&mut self, f: FileNo, at: u64, into: &mut [u8]) -> Result<usize, DiskErr>
        ensures within { IfOk result (λ n. n ≤ length into.old) }
        ensures count { meaning.observable ≡ true → IfOk result (λ n. n ≡ min (length into.old) (length (drop at (content (now (meaning.history self.old)).reads f.0)))) }
        ensures bytes { meaning.observable ≡ true → IfOk result (λ n. into.new ≡ take n (drop at (content (now (meaning.history self.old)).reads f.0)) ++ drop n into.old) }
        ensures same { meaning.observable ≡ true → now (meaning.history self.new) ≡ now (meaning.history self.old) }
        ensures moments { meaning.observable ≡ true → Passes (meaning.history self.old) (meaning.history self.new) (λ s. s ≡ now (meaning.history self.old)) }
        ensures sync_out { meaning.sync_out self.new ≡ meaning.sync_out self.old }
        ensures read_out { meaning.read_out self.new ≡ meaning.read_out self.old }
        ensures read_of { meaning.read_of self.new ≡ meaning.read_of self.old }
        ensures last_job { meaning.last_job self.new ≡ meaning.last_job self.old }
        ensures cause { HasFault (meaning.faults self.old) (meaning.faults self.new) result };

    /// Makes stable what the files read as, and which files are there, and gives back the room that was set aside
    /// behind files. A sync job that is out stays so.
    fn sync_now(&mut self) -> Result<(), DiskErr>
        ensures done { meaning.observable ≡ true → OnOk result (now (meaning.history self.new) ≡ synced (now (meaning.history self.old))) }
        ensures moments { meaning.observable ≡ true → Passes (meaning.history self.old) (meaning.history self.new) (IsEither (now (meaning.history self.old)) (synced (now (meaning.history self.old)))) }
        ensures sync_out { meaning.sync_out self.new ≡ meaning.sync_out self.old }
        ensures read_out { meaning.read_out self.new ≡ meaning.read_out self.old }
        ensures read_of { meaning.read_of self.new ≡ meaning.read_of self.old }
        ensures last_job { meaning.last_job self.new ≡ meaning.last_job self.old }
        ensures cause { HasFault (meaning.faults self.old) (meaning.faults self.new) result };

    /// Begins a sync of what the files read as now. The room that was set aside behind files stays. A sync job that
    /// is out is given up. It fails where the last number was allocated before.
    fn begin_sync(&mut self) -> Result<Self::Job, DiskErr>
        ensures done { meaning.observable ≡ true → OnOk result (now (meaning.history self.new) ≡ job_begun (now (meaning.history self.old))) }
        ensures moments { meaning.observable ≡ true → Passes (meaning.history self.old) (meaning.history self.new) (IsEither (now (meaning.history self.old)) (job_begun (now (meaning.history self.old)))) }
        ensures number { IfOk result (λ job. Self.Job.job_number job ≡ meaning.last_job self.old + 1) }
        ensures begun { IfOk result (λ job. meaning.sync_out self.new ≡ Some (Self.Job.job_number job)) }
        ensures none_out { OnErr result (meaning.sync_out self.new ≡ None) }
        ensures read_out { meaning.read_out self.new ≡ meaning.read_out self.old }
        ensures read_of { meaning.read_of self.new ≡ meaning.read_of self.old }
        ensures last_job { IfOk result (λ job. meaning.last_job self.new ≡ Self.Job.job_number job) }
        ensures no_new_job { OnErr result (meaning.last_job self.new ≡ meaning.last_job self.old) }
        ensures cause { HasFault (meaning.faults self.old) (meaning.faults self.new) result };

    /// Ends the sync that is out: what the files read as at its beginning is stable. It fails where the
    /// job failed. No sync job is out afterwards.
    fn end_sync(&mut self, done: <Self::Job as SyncJob>::Done) -> Result<(), DiskErr>
        requires { meaning.sync_out self.old ≡ Some (Self.Job.Done.done_number done) }
        ensures done { meaning.observable ≡ true → OnOk result (now (meaning.history self.new) ≡ job_ended (now (meaning.history self.old))) }
        ensures moments { meaning.observable ≡ true → Passes (meaning.history self.old) (meaning.history self.new) (IsEither (now (meaning.history self.old)) (job_ended (now (meaning.history self.old)))) }
        ensures none_out { meaning.sync_out self.new ≡ None }
        ensures read_out { meaning.read_out self.new ≡ meaning.read_out self.old }
        ensures read_of { meaning.read_of self.new ≡ meaning.read_of self.old }
        ensures last_job { meaning.last_job self.new ≡ meaning.last_job self.old }
        ensures cause { HasFault (meaning.faults self.old) (meaning.faults self.new) result };

    /// Begins to read a whole file. A read job that is out is given up. It fails where the last number
    /// was allocated before.
    fn read_job(&mut self, f: FileNo) -> Result<Self::ReadJob, DiskErr>
        ensures same { meaning.observable ≡ true → now (meaning.history self.new) ≡ now (meaning.history self.old) }
        ensures moments { meaning.observable ≡ true → Passes (meaning.history self.old) (meaning.history self.new) (λ s. s ≡ now (meaning.history self.old)) }
        ensures number { IfOk result (λ job. Self.ReadJob.job_number job ≡ meaning.last_job self.old + 1) }
        ensures begun { IfOk result (λ job. meaning.read_out self.new ≡ Some (Self.ReadJob.job_number job)) }
        ensures read_of { OnOk result (meaning.read_of self.new ≡ f.0) }
        ensures none_out { OnErr result (meaning.read_out self.new ≡ None) }
        ensures sync_out { meaning.sync_out self.new ≡ meaning.sync_out self.old }
        ensures last_job { IfOk result (λ job. meaning.last_job self.new ≡ Self.ReadJob.job_number job) }
        ensures no_new_job { OnErr result (meaning.last_job self.new ≡ meaning.last_job self.old) }
        ensures cause { HasFault (meaning.faults self.old) (meaning.faults self.new) result };

    /// Ends the reading that is out, with the bytes of its file as it reads now; none where the file is
    /// not there. It fails where the job failed. No read job is out afterwards, whatever the answer.
    fn end_read(
        &mut self,
        alloc: Global,
        done: <Self::ReadJob as ReadJob>::Done,
    ) -> Result<Vec<u8>, DiskErr>
        requires { meaning.read_out self.old ≡ Some (Self.ReadJob.Done.done_number done) }
        ensures bytes { meaning.observable ≡ true → IfOk result (λ bytes. bytes.items ≡ content (now (meaning.history self.old)).reads (meaning.read_of self.old)) }
        ensures same { meaning.observable ≡ true → now (meaning.history self.new) ≡ now (meaning.history self.old) }
        ensures moments { meaning.observable ≡ true → Passes (meaning.history self.old) (meaning.history self.new) (λ s. s ≡ now (meaning.history self.old)) }
        ensures none_out { meaning.read_out self.new ≡ None }
        ensures sync_out { meaning.sync_out self.new ≡ meaning.sync_out self.old }
        ensures last_job { meaning.last_job self.new ≡ meaning.last_job self.old }
        ensures cause { HasCause (meaning.faults self.old) (meaning.faults self.new) result };

    /// How many calls have failed.
    fn faults(&self) -> u64
        ensures { result ≡ meaning.faults self.now };

    /// The number of the sync job that is out.
    fn sync_out(&self) -> Option<u64>
        ensures { result ≡ meaning.sync_out self.now };

    /// The number of the read job that is out.
    fn read_out(&self) -> Option<u64>
        ensures { result ≡ meaning.read_out self.now };
}
