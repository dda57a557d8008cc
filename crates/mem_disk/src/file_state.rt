// One file, as a record of changes leaves it.
ghost use Rattle.std.specs.Prelude.{◌≡◌, ◌++◌, None, Some, IfOk, OnOk};
ghost use Rattle.je_disk.specs.States.{nothing};
ghost use Rattle.mem_disk.specs.CrashStates.{view_of, file_in, traced, changed_in, created_in, appended_in, cut_in, removed_in, synced_in, begun_in, ended_in};
ghost use Rattle.mem_disk.specs.Replay.{replay};

use crate::{Change, MemCrashState};
use je_lsn::FileNo;
use std::alloc::{AllocError, Global};

/// One file: how it reads, what a crash keeps of it, and what it will keep when the sync ends that is out.
#[derive(Drop)]
pub struct FileState {
    reads: Option<Vec<u8>>,
    crash_state: MemCrashState,
    job: Option<MemCrashState>,
}

impl FileState {
    /// A file of the empty disk. It takes no memory.
    pub fn new(alloc: Global) -> FileState
        ensures { view_of result ≡ file_in 0 nothing }
    {
        FileState {
            reads: None,
            crash_state: MemCrashState::none(alloc),
            job: None,
        }
    }

    /// What a crash keeps of the file.
    pub fn into_crash_state(self) -> MemCrashState
        ensures { result ≡ self.crash_state }
    {
        let FileState {
            reads: _,
            crash_state,
            job: _,
        } = self;
        crash_state
    }

    fn create(&mut self, alloc: Global)
        ensures { view_of self.new ≡ created_in (view_of self.old) }
    {
        if self.reads.is_some() {
            return;
        }
        self.reads = Some(Vec::new(alloc));
        self.crash_state.begin();
        if let Some(job) = &mut self.job {
            job.begin();
        }
    }

    // bytes are put where the file was not there
    fn make(&mut self, alloc: Global, bytes: &[u8]) -> Result<(), AllocError>
        requires { self.old.reads ≡ None }
        ensures { OnOk result (view_of self.new ≡ appended_in bytes.now (view_of self.old)) }
    {
        let len = bytes.len() as u64;
        self.reads = Some(Vec::from_slice(alloc, bytes)?);
        self.crash_state.begin_with(len)?;
        if let Some(job) = &mut self.job {
            job.begin_with(len)?;
        }
        Ok(())
    }

    fn append(&mut self, alloc: Global, bytes: &[u8]) -> Result<(), AllocError>
        ensures { OnOk result (view_of self.new ≡ appended_in bytes.now (view_of self.old)) }
    {
        let Some(there) = &mut self.reads else {
            return self.make(alloc, bytes);
        };
        there.extend_from_slice(bytes)?;
        let len = there.len() as u64;
        self.crash_state.grow(len)?;
        if let Some(job) = &mut self.job {
            job.grow(len)?;
        }
        Ok(())
    }

    fn cut(&mut self, len: u64)
        ensures { view_of self.new ≡ cut_in len (view_of self.old) }
    {
        let Some(there) = &mut self.reads else {
            return;
        };
        if len >= there.len() as u64 {
            return;
        }
        there.truncate(len as usize);
        self.crash_state.shorten(len);
        if let Some(job) = &mut self.job {
            job.shorten(len);
        }
    }

    fn remove(&mut self)
        ensures { view_of self.new ≡ removed_in (view_of self.old) }
    {
        if self.reads.is_none() {
            return;
        }
        self.reads = None;
        self.crash_state.remove();
        if let Some(job) = &mut self.job {
            job.remove();
        }
    }

    fn sync(&mut self, alloc: Global) -> Result<(), AllocError>
        ensures { OnOk result (view_of self.new ≡ synced_in (view_of self.old)) }
    {
        self.crash_state = MemCrashState::synced(alloc, &self.reads)?;
        if self.job.is_some() {
            self.job = Some(MemCrashState::synced(alloc, &self.reads)?);
        }
        Ok(())
    }

    fn begin_sync(&mut self, alloc: Global) -> Result<(), AllocError>
        ensures { OnOk result (view_of self.new ≡ begun_in (view_of self.old)) }
    {
        self.job = Some(self.crash_state.after_job(alloc, &self.reads)?);
        Ok(())
    }

    fn end_sync(&mut self)
        ensures { view_of self.new ≡ ended_in (view_of self.old) }
    {
        if let Some(job) = self.job.take() {
            self.crash_state = job;
        }
    }

    /// One more change of the disk, where the file has this number.
    pub fn change(&mut self, alloc: Global, f: FileNo, change: &Change) -> Result<(), AllocError>
        ensures { OnOk result (view_of self.new ≡ changed_in f.0 change.now (view_of self.old)) }
    {
        match change {
            Change::Create(g) => {
                if f.0 == g.0 {
                    self.create(alloc);
                }
                Ok(())
            }
            Change::Append(g, bytes) => {
                if f.0 == g.0 {
                    return self.append(alloc, bytes.as_slice());
                }
                Ok(())
            }
            Change::Cut(g, len) => {
                if f.0 == g.0 {
                    self.cut(*len);
                }
                Ok(())
            }
            Change::Remove(g) => {
                if f.0 == g.0 {
                    self.remove();
                }
                Ok(())
            }
            Change::Sync => self.sync(alloc),
            Change::BeginSync => self.begin_sync(alloc),
            Change::EndSync => {
                self.end_sync();
                Ok(())
            }
        }
    }
}

/// The file of this number, after these changes of an empty disk.
pub fn file_after(alloc: Global, changes: &[Change], f: FileNo) -> Result<FileState, AllocError>
    ensures { IfOk result (λ file. view_of file ≡ file_in f.0 (replay changes.now)) }
{
    let mut file = FileState::new(alloc);
    for change in changes {
        file.change(alloc, f, change)?;
    }
    Ok(file)
}
