// The disk in memory.
use crate::fault_plan::FaultPlan;
use crate::file_map::FileMap;
use crate::{MemCrashState, MemDone, MemJob, MemReadDone, MemReadJob};
use je_disk::{Disk, DiskErr, Jobs, ReadDone, SyncDone};
use je_lsn::FileNo;
use std::alloc::{AllocError, Global};

/// A disk in memory. Calls of the trait are numbered from 1; those whose numbers are listed and those
/// behind the stop fail and change nothing, and so does a call that finds no memory and has no such
/// answer.
#[derive(Drop)]
pub struct MemDisk {
    file_map: FileMap,
    plan: FaultPlan,
    jobs: Jobs,
}

impl MemDisk {
    ghost use Rattle.std.specs.Prelude.{◌≡◌, ◌-◌, ◌^◌, ℕ, None, [], map, nat_eq, IfOk, OnOk, OnErr};
    ghost use Rattle.std.specs.List.Sorted.{IsStrictlyIncreasing};
    ghost use Rattle.std.specs.Map.{lookup};
    ghost use Rattle.je_disk.specs.Moments.{now};
    ghost use Rattle.je_disk.specs.States.{nothing, synced};
    ghost use Rattle.mem_disk.specs.CrashStates.{crash_state_of};
    ghost use Rattle.mem_disk.specs.Replay.{listed, held};
    ghost use Rattle.mem_disk.specs.Memory.{observed_history, faults_of, calls_of, fails_of, stop_call_of, sync_of, read_job_of, last_job_of};

    /// An empty disk, on which no call is to fail. It takes no memory.
    pub fn new(alloc: Global) -> MemDisk
        ensures state { now (observed_history result) ≡ nothing }
        ensures faults { faults_of result ≡ 0 }
        ensures calls { calls_of result ≡ 0 }
        ensures fails { fails_of result ≡ [] }
        ensures stop { stop_call_of result ≡ 2 ^ 64 - 1 }
        ensures sync_out { sync_of result ≡ None }
        ensures read_out { read_job_of result ≡ None }
        ensures last_job { last_job_of result ≡ 0 }
    {
        MemDisk {
            file_map: FileMap::new(alloc),
            plan: FaultPlan::new(Vec::new(alloc)),
            jobs: Jobs::new(),
        }
    }

    /// A disk that has these files, all of them stable. Of files of one number the later one stands
    /// at the end of the earlier one.
    pub fn with_files(alloc: Global, files: Vec<(FileNo, Vec<u8>)>) -> Result<MemDisk, AllocError>
        ensures state { IfOk result (λ disk. now (observed_history disk) ≡ synced (held (listed files.items))) }
        ensures faults { IfOk result (λ disk. faults_of disk ≡ 0) }
        ensures calls { IfOk result (λ disk. calls_of disk ≡ 0) }
        ensures fails { IfOk result (λ disk. fails_of disk ≡ []) }
        ensures stop { IfOk result (λ disk. stop_call_of disk ≡ 2 ^ 64 - 1) }
        ensures sync_out { IfOk result (λ disk. sync_of disk ≡ None) }
        ensures read_out { IfOk result (λ disk. read_job_of disk ≡ None) }
        ensures last_job { IfOk result (λ disk. last_job_of disk ≡ 0) }
    {
        Ok(MemDisk {
            file_map: FileMap::with_files(alloc, files.as_slice())?,
            plan: FaultPlan::new(Vec::new(alloc)),
            jobs: Jobs::new(),
        })
    }

    /// Lists the calls that are to fail by their numbers, in place of those listed before. Running
    /// out of memory changes nothing.
    pub fn fail_calls(&mut self, alloc: Global, numbers: &[u64]) -> Result<(), AllocError>
        ensures observed { observed_history self.new ≡ observed_history self.old }
        ensures faults { faults_of self.new ≡ faults_of self.old }
        ensures calls { calls_of self.new ≡ calls_of self.old }
        ensures stop { stop_call_of self.new ≡ stop_call_of self.old }
        ensures jobs { self.new.jobs ≡ self.old.jobs }
        ensures ok { OnOk result (fails_of self.new ≡ numbers.now) }
        ensures err { OnErr result (fails_of self.new ≡ fails_of self.old) }
    {
        let numbers = Vec::from_slice(alloc, numbers)?;
        self.plan.fail(numbers);
        Ok(())
    }

    /// Sets the stop, in place of the one set before: the calls up to the number `last` work as before,
    /// and each call behind it fails, so that the disk holds still from then on. At 0 each call fails.
    pub fn stop_after(&mut self, last: u64)
        ensures observed { observed_history self.new ≡ observed_history self.old }
        ensures faults { faults_of self.new ≡ faults_of self.old }
        ensures calls { calls_of self.new ≡ calls_of self.old }
        ensures fails { fails_of self.new ≡ fails_of self.old }
        ensures jobs { self.new.jobs ≡ self.old.jobs }
        ensures stop { stop_call_of self.new ≡ last }
    {
        self.plan.stop_after(last);
    }

    /// The files as they read, rising by their numbers.
    pub fn files(&self, alloc: Global) -> Result<Vec<(FileNo, Vec<u8>)>, AllocError>
        ensures rising { IfOk result (λ files. IsStrictlyIncreasing (map (λ p. p.0) (listed files.items))) }
        ensures read { IfOk result (λ files. (f : ℕ) → lookup (nat_eq f) (listed files.items) ≡ (now (observed_history self.now)).reads f) }
    {
        self.file_map.files(alloc)
    }

    /// What a crash that comes now keeps of a file. It goes over all changes of the disk so far.
    pub fn crash_state(&self, alloc: Global, f: FileNo) -> Result<MemCrashState, AllocError>
        ensures { IfOk result (λ crash_state. crash_state_of crash_state ≡ (now (observed_history self.now)).crash_states f.0) }
    {
        self.file_map.crash_state(alloc, f)
    }
}

// The clauses are the trait's, and which calls fail.
impl Disk for MemDisk {
    ghost use Rattle.std.specs.Prelude.{true, Some, None, ◌≡◌, ◌≤◌, ◌+◌, ◌-◌, ◌^◌, ◌⊎◌, ◌↔◌, ◌++◌, length, take, drop, min, IsErr, IsErrOf, IfOk, OnOk, OnErr};
    ghost use Rattle.je_disk.specs.Causes.{HasFault, HasCause};
    ghost use Rattle.je_disk.specs.Moments.{now, Passes};
    ghost use Rattle.je_disk.specs.States.{content, created, appended, cut, removed, synced, job_begun, job_ended, IsEither, IsPartOfAppend, IsListing, AreRisingNumbers};
    ghost use Rattle.mem_disk.specs.Memory.{observed_history, faults_of, sync_of, read_job_of, read_file_of, last_job_of, IsDue, CountsCall};

    type Job = MemJob;

    type ReadJob = MemReadJob;

    ghost meaning = { record { observable = true; history = observed_history; faults = faults_of; sync_out = sync_of; read_out = read_job_of; read_of = read_file_of; last_job = last_job_of } };

    fn mount(&mut self) -> Result<(), DiskErr>
        ensures same { now (observed_history self.new) ≡ now (observed_history self.old) }
        ensures moments { Passes (observed_history self.old) (observed_history self.new) (λ s. s ≡ now (observed_history self.old)) }
        ensures sync_out { sync_of self.new ≡ None }
        ensures read_out { read_job_of self.new ≡ None }
        ensures last_job { last_job_of self.new ≡ last_job_of self.old }
        ensures cause { HasFault (faults_of self.old) (faults_of self.new) result }
        ensures due { IsErr result ↔ IsDue self.old }
        ensures counted { CountsCall self.old self.new }
    {
        self.jobs.give_up_sync();
        self.jobs.give_up_reading();
        self.plan.call()
    }

    fn list(&mut self, alloc: Global) -> Result<Vec<FileNo>, DiskErr>
        ensures rising { IfOk result (λ files. AreRisingNumbers files.items) }
        ensures listed { IfOk result (λ files. IsListing (now (observed_history self.old)).reads files.items) }
        ensures same { now (observed_history self.new) ≡ now (observed_history self.old) }
        ensures moments { Passes (observed_history self.old) (observed_history self.new) (λ s. s ≡ now (observed_history self.old)) }
        ensures sync_out { sync_of self.new ≡ sync_of self.old }
        ensures read_out { read_job_of self.new ≡ read_job_of self.old }
        ensures read_of { read_file_of self.new ≡ read_file_of self.old }
        ensures last_job { last_job_of self.new ≡ last_job_of self.old }
        ensures cause { HasCause (faults_of self.old) (faults_of self.new) result }
        ensures due { IsErrOf result DiskErr.Failed ↔ IsDue self.old }
        ensures counted { CountsCall self.old self.new }
    {
        self.plan.call()?;
        Ok(self.file_map.numbers(alloc)?)
    }

    fn len(&mut self, f: FileNo) -> Result<u64, DiskErr>
        ensures length { IfOk result (λ n. n ≡ length (content (now (observed_history self.old)).reads f.0)) }
        ensures same { now (observed_history self.new) ≡ now (observed_history self.old) }
        ensures moments { Passes (observed_history self.old) (observed_history self.new) (λ s. s ≡ now (observed_history self.old)) }
        ensures sync_out { sync_of self.new ≡ sync_of self.old }
        ensures read_out { read_job_of self.new ≡ read_job_of self.old }
        ensures read_of { read_file_of self.new ≡ read_file_of self.old }
        ensures last_job { last_job_of self.new ≡ last_job_of self.old }
        ensures cause { HasFault (faults_of self.old) (faults_of self.new) result }
        ensures due { IsErr result ↔ IsDue self.old }
        ensures counted { CountsCall self.old self.new }
    {
        self.plan.call()?;
        Ok(self.file_map.len(f))
    }

    fn create(&mut self, f: FileNo) -> Result<(), DiskErr>
        ensures done { OnOk result (now (observed_history self.new) ≡ created f.0 (now (observed_history self.old))) }
        ensures moments { Passes (observed_history self.old) (observed_history self.new) (IsEither (now (observed_history self.old)) (created f.0 (now (observed_history self.old)))) }
        ensures sync_out { sync_of self.new ≡ sync_of self.old }
        ensures read_out { read_job_of self.new ≡ read_job_of self.old }
        ensures read_of { read_file_of self.new ≡ read_file_of self.old }
        ensures last_job { last_job_of self.new ≡ last_job_of self.old }
        ensures cause { HasFault (faults_of self.old) (faults_of self.new) result }
        ensures unchanged { OnErr result (observed_history self.new ≡ observed_history self.old) }
        ensures due { IsDue self.old → IsErr result }
        ensures counted { CountsCall self.old self.new }
    {
        self.plan.call()?;
        match self.file_map.create(f) {
            Ok(()) => Ok(()),
            Err(_) => Err(self.plan.fault()),
        }
    }

    fn append(&mut self, f: FileNo, bytes: &[u8]) -> Result<(), DiskErr>
        ensures done { OnOk result (now (observed_history self.new) ≡ appended f.0 bytes.now (now (observed_history self.old))) }
        ensures moments { Passes (observed_history self.old) (observed_history self.new) (IsPartOfAppend f.0 bytes.now (now (observed_history self.old))) }
        ensures sync_out { sync_of self.new ≡ sync_of self.old }
        ensures read_out { read_job_of self.new ≡ read_job_of self.old }
        ensures read_of { read_file_of self.new ≡ read_file_of self.old }
        ensures last_job { last_job_of self.new ≡ last_job_of self.old }
        ensures cause { HasFault (faults_of self.old) (faults_of self.new) result }
        ensures unchanged { OnErr result (observed_history self.new ≡ observed_history self.old) }
        ensures due { IsDue self.old → IsErr result }
        ensures counted { CountsCall self.old self.new }
    {
        self.plan.call()?;
        match self.file_map.append(f, bytes) {
            Ok(()) => Ok(()),
            Err(_) => Err(self.plan.fault()),
        }
    }

    fn cut(&mut self, f: FileNo, len: u64) -> Result<(), DiskErr>
        requires { sync_of self.old ≡ None }
        ensures done { OnOk result (now (observed_history self.new) ≡ cut f.0 len (now (observed_history self.old))) }
        ensures moments { Passes (observed_history self.old) (observed_history self.new) (IsEither (now (observed_history self.old)) (cut f.0 len (now (observed_history self.old)))) }
        ensures sync_out { sync_of self.new ≡ sync_of self.old }
        ensures read_out { read_job_of self.new ≡ read_job_of self.old }
        ensures read_of { read_file_of self.new ≡ read_file_of self.old }
        ensures last_job { last_job_of self.new ≡ last_job_of self.old }
        ensures cause { HasFault (faults_of self.old) (faults_of self.new) result }
        ensures unchanged { OnErr result (observed_history self.new ≡ observed_history self.old) }
        ensures due { IsDue self.old → IsErr result }
        ensures counted { CountsCall self.old self.new }
    {
        self.plan.call()?;
        match self.file_map.cut(f, len) {
            Ok(()) => Ok(()),
            Err(_) => Err(self.plan.fault()),
        }
    }

    fn remove(&mut self, f: FileNo) -> Result<(), DiskErr>
        ensures done { OnOk result (now (observed_history self.new) ≡ removed f.0 (now (observed_history self.old))) }
        ensures moments { Passes (observed_history self.old) (observed_history self.new) (IsEither (now (observed_history self.old)) (removed f.0 (now (observed_history self.old)))) }
        ensures sync_out { sync_of self.new ≡ sync_of self.old }
        ensures read_out { read_job_of self.new ≡ read_job_of self.old }
        ensures read_of { read_file_of self.new ≡ read_file_of self.old }
        ensures last_job { last_job_of self.new ≡ last_job_of self.old }
        ensures cause { HasFault (faults_of self.old) (faults_of self.new) result }
        ensures unchanged { OnErr result (observed_history self.new ≡ observed_history self.old) }
        ensures due { IsDue self.old → IsErr result }
        ensures counted { CountsCall self.old self.new }
    {
        self.plan.call()?;
        match self.file_map.remove(f) {
            Ok(()) => Ok(()),
            Err(_) => Err(self.plan.fault()),
        }
    }

    fn read(&mut self, f: FileNo, at: u64, into: &mut [u8]) -> Result<usize, DiskErr>
        ensures within { IfOk result (λ n. n ≤ length into.old) }
        ensures count { IfOk result (λ n. n ≡ min (length into.old) (length (drop at (content (now (observed_history self.old)).reads f.0)))) }
        ensures bytes { IfOk result (λ n. into.new ≡ take n (drop at (content (now (observed_history self.old)).reads f.0)) ++ drop n into.old) }
        ensures same { now (observed_history self.new) ≡ now (observed_history self.old) }
        ensures moments { Passes (observed_history self.old) (observed_history self.new) (λ s. s ≡ now (observed_history self.old)) }
        ensures sync_out { sync_of self.new ≡ sync_of self.old }
        ensures read_out { read_job_of self.new ≡ read_job_of self.old }
        ensures read_of { read_file_of self.new ≡ read_file_of self.old }
        ensures last_job { last_job_of self.new ≡ last_job_of self.old }
        ensures cause { HasFault (faults_of self.old) (faults_of self.new) result }
        ensures due { IsErr result ↔ IsDue self.old }
        ensures counted { CountsCall self.old self.new }
    {
        self.plan.call()?;
        Ok(self.file_map.read(f, at, into))
    }

    fn sync_now(&mut self) -> Result<(), DiskErr>
        ensures done { OnOk result (now (observed_history self.new) ≡ synced (now (observed_history self.old))) }
        ensures moments { Passes (observed_history self.old) (observed_history self.new) (IsEither (now (observed_history self.old)) (synced (now (observed_history self.old)))) }
        ensures sync_out { sync_of self.new ≡ sync_of self.old }
        ensures read_out { read_job_of self.new ≡ read_job_of self.old }
        ensures read_of { read_file_of self.new ≡ read_file_of self.old }
        ensures last_job { last_job_of self.new ≡ last_job_of self.old }
        ensures cause { HasFault (faults_of self.old) (faults_of self.new) result }
        ensures unchanged { OnErr result (observed_history self.new ≡ observed_history self.old) }
        ensures due { IsDue self.old → IsErr result }
        ensures counted { CountsCall self.old self.new }
    {
        self.plan.call()?;
        match self.file_map.sync() {
            Ok(()) => Ok(()),
            Err(_) => Err(self.plan.fault()),
        }
    }

    fn begin_sync(&mut self) -> Result<MemJob, DiskErr>
        ensures done { OnOk result (now (observed_history self.new) ≡ job_begun (now (observed_history self.old))) }
        ensures moments { Passes (observed_history self.old) (observed_history self.new) (IsEither (now (observed_history self.old)) (job_begun (now (observed_history self.old)))) }
        ensures number { IfOk result (λ job. job.number ≡ last_job_of self.old + 1) }
        ensures begun { IfOk result (λ job. sync_of self.new ≡ Some job.number) }
        ensures none_out { OnErr result (sync_of self.new ≡ None) }
        ensures read_out { read_job_of self.new ≡ read_job_of self.old }
        ensures read_of { read_file_of self.new ≡ read_file_of self.old }
        ensures last_job { IfOk result (λ job. last_job_of self.new ≡ job.number) }
        ensures no_new_job { OnErr result (last_job_of self.new ≡ last_job_of self.old) }
        ensures cause { HasFault (faults_of self.old) (faults_of self.new) result }
        ensures unchanged { OnErr result (observed_history self.new ≡ observed_history self.old) }
        ensures due { IsDue self.old → IsErr result }
        ensures counted { CountsCall self.old self.new }
    {
        self.jobs.give_up_sync();
        self.plan.call()?;
        let Some(number) = self.jobs.next() else {
            return Err(self.plan.fault());
        };
        match self.file_map.begin_sync() {
            Ok(()) => {
                self.jobs.begin_sync(number);
                Ok(MemJob::new(number))
            }
            Err(_) => Err(self.plan.fault()),
        }
    }

    fn end_sync(&mut self, done: MemDone) -> Result<(), DiskErr>
        requires { sync_of self.old ≡ Some done.number }
        ensures done { OnOk result (now (observed_history self.new) ≡ job_ended (now (observed_history self.old))) }
        ensures moments { Passes (observed_history self.old) (observed_history self.new) (IsEither (now (observed_history self.old)) (job_ended (now (observed_history self.old)))) }
        ensures none_out { sync_of self.new ≡ None }
        ensures read_out { read_job_of self.new ≡ read_job_of self.old }
        ensures read_of { read_file_of self.new ≡ read_file_of self.old }
        ensures last_job { last_job_of self.new ≡ last_job_of self.old }
        ensures cause { HasFault (faults_of self.old) (faults_of self.new) result }
        ensures unchanged { OnErr result (observed_history self.new ≡ observed_history self.old) }
        ensures due { IsDue self.old → IsErr result }
        ensures counted { CountsCall self.old self.new }
    {
        done.give_up();
        self.jobs.give_up_sync();
        self.plan.call()?;
        match self.file_map.end_sync() {
            Ok(()) => Ok(()),
            Err(_) => Err(self.plan.fault()),
        }
    }

    fn read_job(&mut self, f: FileNo) -> Result<MemReadJob, DiskErr>
        ensures same { now (observed_history self.new) ≡ now (observed_history self.old) }
        ensures moments { Passes (observed_history self.old) (observed_history self.new) (λ s. s ≡ now (observed_history self.old)) }
        ensures number { IfOk result (λ job. job.number ≡ last_job_of self.old + 1) }
        ensures begun { IfOk result (λ job. read_job_of self.new ≡ Some job.number) }
        ensures read_of { OnOk result (read_file_of self.new ≡ f.0) }
        ensures none_out { OnErr result (read_job_of self.new ≡ None) }
        ensures sync_out { sync_of self.new ≡ sync_of self.old }
        ensures last_job { IfOk result (λ job. last_job_of self.new ≡ job.number) }
        ensures no_new_job { OnErr result (last_job_of self.new ≡ last_job_of self.old) }
        ensures cause { HasFault (faults_of self.old) (faults_of self.new) result }
        ensures due { IsErr result ↔ (IsDue self.old ⊎ (last_job_of self.old ≡ 2 ^ 64 - 1)) }
        ensures counted { CountsCall self.old self.new }
    {
        self.jobs.give_up_reading();
        self.plan.call()?;
        let Some(number) = self.jobs.next() else {
            return Err(self.plan.fault());
        };
        self.jobs.begin_reading(number, f);
        Ok(MemReadJob::new(number))
    }

    fn end_read(&mut self, alloc: Global, done: MemReadDone) -> Result<Vec<u8>, DiskErr>
        requires { read_job_of self.old ≡ Some done.number }
        ensures bytes { IfOk result (λ bytes. bytes.items ≡ content (now (observed_history self.old)).reads (read_file_of self.old)) }
        ensures same { now (observed_history self.new) ≡ now (observed_history self.old) }
        ensures moments { Passes (observed_history self.old) (observed_history self.new) (λ s. s ≡ now (observed_history self.old)) }
        ensures none_out { read_job_of self.new ≡ None }
        ensures sync_out { sync_of self.new ≡ sync_of self.old }
        ensures last_job { last_job_of self.new ≡ last_job_of self.old }
        ensures cause { HasCause (faults_of self.old) (faults_of self.new) result }
        ensures due { IsErrOf result DiskErr.Failed ↔ IsDue self.old }
        ensures counted { CountsCall self.old self.new }
    {
        done.give_up();
        self.jobs.give_up_reading();
        self.plan.call()?;
        Ok(self.file_map.bytes(alloc, self.jobs.file())?)
    }

    fn faults(&self) -> u64 {
        self.plan.faults()
    }

    fn sync_out(&self) -> Option<u64> {
        self.jobs.sync()
    }

    fn read_out(&self) -> Option<u64> {
        self.jobs.reading()
    }
}
