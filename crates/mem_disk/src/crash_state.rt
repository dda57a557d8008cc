// What a crash keeps of one file.
ghost use Rattle.std.specs.Prelude.{◌≡◌, None, Some, option_map, IfOk, OnOk, OnErr};
ghost use Rattle.je_disk.specs.States.{begun, grown, shortened, dropped, synced_crash_state, job_crash_state};
ghost use Rattle.mem_disk.specs.CrashStates.{crash_state_of, file_bytes_of};

use je_disk::extended;
use std::alloc::{AllocError, Global};

/// What a crash keeps of one file. It may leave the file with its stable bytes, and behind them any
/// bytes, up to the greatest length.
#[derive(Drop)]
pub struct MemCrashState {
    /// The file's first bytes, which stay since the last sync that finished.
    pub stable: Vec<u8>,
    /// The greatest length that the file may have had since then, in bytes, with the room set aside behind it.
    pub max_len: u64,
    /// Whether the file is there in any case.
    pub exists_always: bool,
    /// Whether the file may be there.
    pub may_exist: bool,
}

impl MemCrashState {
    /// The crash state of a file that is not there, and was not. It takes no memory.
    pub(crate) fn none(alloc: Global) -> MemCrashState
        ensures { crash_state_of result ≡ synced_crash_state None }
    {
        MemCrashState {
            stable: Vec::new(alloc),
            max_len: 0,
            exists_always: false,
            may_exist: false,
        }
    }

    /// The crash state of a file that a sync has made stable.
    pub(crate) fn synced(
        alloc: Global,
        reads: &Option<Vec<u8>>,
    ) -> Result<MemCrashState, AllocError>
        ensures { IfOk result (λ crash_state. crash_state_of crash_state ≡ synced_crash_state (file_bytes_of reads.now)) }
    {
        match reads {
            Some(there) => Ok(MemCrashState {
                stable: Vec::from_slice(alloc, there.as_slice())?,
                max_len: there.len() as u64,
                exists_always: true,
                may_exist: true,
            }),
            None => Ok(MemCrashState::none(alloc)),
        }
    }

    /// The crash state of the file once a sync job has ended that begins now, where the file reads so.
    pub(crate) fn after_job(
        &self,
        alloc: Global,
        reads: &Option<Vec<u8>>,
    ) -> Result<MemCrashState, AllocError>
        ensures { IfOk result (λ crash_state. crash_state_of crash_state ≡ job_crash_state (file_bytes_of reads.now) (crash_state_of self.now)) }
    {
        match reads {
            Some(there) => Ok(MemCrashState {
                stable: Vec::from_slice(alloc, there.as_slice())?,
                max_len: self.max_len,
                exists_always: true,
                may_exist: true,
            }),
            None => Ok(MemCrashState::none(alloc)),
        }
    }

    /// The file begins.
    pub(crate) fn begin(&mut self)
        ensures { crash_state_of self.new ≡ begun (crash_state_of self.old) }
    {
        self.stable.clear();
        self.may_exist = true;
    }

    /// The file has grown to a length. It answers out of memory where the room for it passes 2^64 - 1 bytes: no
    /// memory holds so many.
    pub(crate) fn grow(&mut self, len: u64) -> Result<(), AllocError>
        ensures { OnOk result (crash_state_of self.new ≡ grown len (crash_state_of self.old)) }
    {
        let Some(end) = extended(len) else {
            return Err(AllocError);
        };
        self.max_len = self.max_len.max(end);
        self.may_exist = true;
        Ok(())
    }

    /// The file begins, with this length.
    pub(crate) fn begin_with(&mut self, len: u64) -> Result<(), AllocError>
        ensures { OnOk result (crash_state_of self.new ≡ grown len (begun (crash_state_of self.old))) }
    {
        self.begin();
        self.grow(len)
    }

    /// The file was cut to a length.
    pub(crate) fn shorten(&mut self, len: u64)
        ensures { crash_state_of self.new ≡ shortened len (crash_state_of self.old) }
    {
        self.stable.truncate(len as usize);
    }

    /// The file was removed.
    pub(crate) fn remove(&mut self)
        ensures { crash_state_of self.new ≡ dropped (crash_state_of self.old) }
    {
        self.exists_always = false;
    }
}
