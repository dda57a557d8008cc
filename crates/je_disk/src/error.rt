// Why a call of a disk failed.
use std::alloc::AllocError;

/// Why a call of a disk failed.
#[derive(Clone, Copy, Debug, PartialEq, Eq)]
pub enum DiskErr {
    /// The disk did not do it; its count of faults rose, or stands at its last value.
    Failed,
    /// Out of memory. The disk is as it was.
    Memory,
}

impl From<AllocError> for DiskErr {
    ghost use Rattle.std.specs.Prelude.{◌≡◌};
    ghost use Rattle.je_disk.specs.declared.error.DiskErr.TheVariants.{Memory};

    ghost from_gives = { λ _ e. e ≡ Memory };

    fn from(_: AllocError) -> DiskErr {
        DiskErr::Memory
    }
}
