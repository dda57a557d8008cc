// The disk over a folder.
use crate::folder::Folder;
use crate::folder_lock::FolderLock;
use crate::{DirDone, DirJob, DirReadDone, DirReadJob};
use je_disk::{Disk, DiskErr, Jobs};
use je_lsn::FileNo;
use std::alloc::{AllocError, Global};
use std::io;
use std::io::ErrorKind;
use std::rt::Files;

/// A folder of log files. Each failed call of the system is a fault, and so is running out of memory in
/// a call that has no such answer. Files stay open, and the folder that is above this one has to be
/// there. Mounting fails where another disk, of this process or of another one, has the folder.
#[derive(Drop)]
pub struct DirDisk<R: Files + AllocGlobal + Clone + Drop> {
    folder: Folder<R>,
    faults: u64,
    jobs: Jobs,
}

impl<R: Files + AllocGlobal + Clone + Drop> DirDisk<R>
where
    R::File: FolderLock,
{
    ghost use Rattle.std.specs.Prelude.{◌≡◌, ◌≤◌, string_bytes, None, Ok, IfOk};
    ghost use Rattle.je_disk.specs.Causes.{HasFault, HasCause};
    ghost use Rattle.je_order.specs.Counts.{HasRisen};

    /// The folder of this path, which need not be there. Nothing is done to it yet. An empty path, as a variable of a
    /// shell gives that is not set, names no folder: the disk over it cannot be mounted.
    pub fn new(rt: &R, path: &str) -> Result<DirDisk<R>, AllocError>
        ensures path { IfOk result (λ disk. string_bytes disk.folder.dir_path.path ≡ path.now) }
        ensures faults { IfOk result (λ disk. disk.faults ≡ 0) }
        ensures sync_out { IfOk result (λ disk. disk.jobs.sync ≡ None) }
        ensures read_out { IfOk result (λ disk. disk.jobs.reading ≡ None) }
        ensures last_job { IfOk result (λ disk. disk.jobs.last_job ≡ 0) }
    {
        let folder = Folder::new(rt, path)?;
        Ok(DirDisk {
            folder,
            faults: 0,
            jobs: Jobs::new(),
        })
    }

    fn fault(&mut self) -> DiskErr
        ensures failed { result ≡ DiskErr.Failed }
        ensures rose { HasRisen self.old.faults self.new.faults }
        ensures never_falls { self.old.faults ≤ self.new.faults }
        ensures jobs { self.new.jobs ≡ self.old.jobs }
    {
        self.faults = self.faults.saturating_add(1);
        DiskErr::Failed
    }

    // What a call says that has no answer but success and a fault.
    fn map_fault<T>(&mut self, answer: io::Result<T>) -> Result<T, DiskErr>
        ensures ok { IfOk result (λ value. answer ≡ Ok value) }
        ensures jobs { self.new.jobs ≡ self.old.jobs }
        ensures cause { HasFault self.old.faults self.new.faults result }
    {
        match answer {
            Ok(value) => Ok(value),
            Err(_) => Err(self.fault()),
        }
    }

    // What a call says that may also answer Memory.
    fn map_fault_or_memory<T>(&mut self, answer: io::Result<T>) -> Result<T, DiskErr>
        ensures ok { IfOk result (λ value. answer ≡ Ok value) }
        ensures jobs { self.new.jobs ≡ self.old.jobs }
        ensures cause { HasCause self.old.faults self.new.faults result }
    {
        match answer {
            Ok(value) => Ok(value),
            Err(e) if e.kind() == ErrorKind::OutOfMemory => Err(DiskErr::Memory),
            Err(_) => Err(self.fault()),
        }
    }
}

impl<R: Files + AllocGlobal + Clone + Drop> Disk for DirDisk<R>
where
    R::File: FolderLock,
{
    ghost use Rattle.std.specs.Prelude.{◌≡◌, [], false, None, IsErr, string_bytes};
    ghost use Rattle.je_disk.specs.Causes.{HasFault};
    ghost use Rattle.je_disk.specs.Moments.{History};
    ghost use Rattle.je_disk.specs.States.{nothing};

    type Job = DirJob<R::File>;

    type ReadJob = DirReadJob<R::File>;

    ghost meaning = { record { observable = false; history = λ _. record { moment = 0; state_at = λ _. nothing }; faults = λ disk. disk.faults; sync_out = λ disk. disk.jobs.sync; read_out = λ disk. disk.jobs.reading; read_of = λ disk. disk.jobs.file.0; last_job = λ disk. disk.jobs.last_job } };

    fn mount(&mut self) -> Result<(), DiskErr>
        ensures sync_out { self.new.jobs.sync ≡ None }
        ensures read_out { self.new.jobs.reading ≡ None }
        ensures last_job { self.new.jobs.last_job ≡ self.old.jobs.last_job }
        ensures cause { HasFault self.old.faults self.new.faults result }
        ensures empty { string_bytes self.old.folder.dir_path.path ≡ [] → IsErr result }
    {
        self.jobs.give_up_sync();
        self.jobs.give_up_reading();
        let answer = self.folder.mount();
        self.map_fault(answer)
    }

    fn list(&mut self, alloc: Global) -> Result<Vec<FileNo>, DiskErr> {
        let answer = self.folder.list(alloc);
        self.map_fault_or_memory(answer)
    }

    fn len(&mut self, f: FileNo) -> Result<u64, DiskErr> {
        let answer = self.folder.len(f);
        self.map_fault(answer)
    }

    fn create(&mut self, f: FileNo) -> Result<(), DiskErr> {
        let answer = self.folder.create(f);
        self.map_fault(answer)
    }

    fn append(&mut self, f: FileNo, bytes: &[u8]) -> Result<(), DiskErr> {
        let answer = self.folder.append(f, bytes);
        self.map_fault(answer)
    }

    fn cut(&mut self, f: FileNo, len: u64) -> Result<(), DiskErr> {
        let answer = self.folder.cut(f, len);
        self.map_fault(answer)
    }

    fn remove(&mut self, f: FileNo) -> Result<(), DiskErr> {
        let answer = self.folder.remove(f);
        self.map_fault(answer)
    }

    fn read(&mut self, f: FileNo, at: u64, into: &mut [u8]) -> Result<usize, DiskErr> {
        let answer = self.folder.read(f, at, into);
        self.map_fault(answer)
    }

    fn sync_now(&mut self) -> Result<(), DiskErr> {
        let answer = self.folder.sync();
        self.map_fault(answer)
    }

    fn begin_sync(&mut self) -> Result<DirJob<R::File>, DiskErr> {
        self.jobs.give_up_sync();
        let Some(number) = self.jobs.next() else {
            self.folder.give_up_sync();
            return Err(self.fault());
        };
        let answer = self.folder.begin_sync(number);
        let job = self.map_fault(answer)?;
        self.jobs.begin_sync(number);
        Ok(job)
    }

    fn end_sync(&mut self, done: DirDone) -> Result<(), DiskErr>
        ensures none_out { self.new.jobs.sync ≡ None }
        ensures read_out { self.new.jobs.reading ≡ self.old.jobs.reading }
        ensures read_of { self.new.jobs.file.0 ≡ self.old.jobs.file.0 }
        ensures last_job { self.new.jobs.last_job ≡ self.old.jobs.last_job }
        ensures failed { done.worked ≡ false → IsErr result }
        ensures cause { HasFault self.old.faults self.new.faults result }
    {
        self.jobs.give_up_sync();
        let answer = self.folder.end_sync(done.worked());
        self.map_fault(answer)
    }

    fn read_job(&mut self, f: FileNo) -> Result<DirReadJob<R::File>, DiskErr> {
        self.jobs.give_up_reading();
        let Some(number) = self.jobs.next() else {
            return Err(self.fault());
        };
        let answer = self.folder.begin_read(number, f);
        let job = self.map_fault(answer)?;
        self.jobs.begin_reading(number, f);
        Ok(job)
    }

    fn end_read(&mut self, alloc: Global, done: DirReadDone) -> Result<Vec<u8>, DiskErr> {
        self.jobs.give_up_reading();
        let answer = self.folder.end_read(alloc, done.bytes());
        self.map_fault_or_memory(answer)
    }

    fn faults(&self) -> u64 {
        self.faults
    }

    fn sync_out(&self) -> Option<u64> {
        self.jobs.sync()
    }

    fn read_out(&self) -> Option<u64> {
        self.jobs.reading()
    }
}
