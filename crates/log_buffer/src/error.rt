// Why a call of a log buffer failed.
use std::alloc::AllocError;

/// Why a call of a log buffer failed.
#[derive(Clone, Copy, Debug, PartialEq, Eq)]
pub enum LogErr {
    /// The entries would pass the last file, 0xfffffffe. The buffer is as it was.
    Full,
    /// The disk failed: its count of faults rose, or stands at its last value. The buffer has failed: it
    /// touches the disk no more, and each later call answers this.
    Fault,
    /// What was read is no entry; never over an observable disk.
    Damaged,
    /// Out of memory. The buffer is as it was.
    Memory,
}

impl From<AllocError> for LogErr {
    ghost use Rattle.std.specs.Prelude.{◌≡◌};
    ghost use Rattle.log_buffer.specs.declared.error.LogErr.TheVariants.{Memory};

    ghost from_gives = { λ _ e. e ≡ Memory };

    fn from(_: AllocError) -> LogErr {
        LogErr::Memory
    }
}
