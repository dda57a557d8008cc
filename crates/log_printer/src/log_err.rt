// Why a log was not read.
use je_disk::DiskErr;
use log_replay::Corruption;
use std::alloc::AllocError;

/// Why a log was not read.
#[derive(Clone, Copy)]
pub enum LogErr {
    /// The disk failed.
    Disk,
    /// Out of memory.
    Memory,
    /// The disk has no file.
    NoFile,
    /// The first corruption in the files, in order.
    Corrupt(Corruption),
}

impl From<AllocError> for LogErr {
    ghost use Rattle.std.specs.Prelude.{◌≡◌};
    ghost use Rattle.log_printer.specs.declared.log_err.LogErr.TheVariants.{Memory};

    ghost from_gives = { λ _ e. e ≡ Memory };

    fn from(_: AllocError) -> LogErr {
        LogErr::Memory
    }
}

impl From<DiskErr> for LogErr {
    ghost use Rattle.std.specs.Prelude.{◌≡◌};
    ghost use Rattle.log_printer.specs.Reading.{error_of};

    ghost from_gives = { λ failure e. e ≡ error_of failure };

    fn from(failure: DiskErr) -> LogErr {
        match failure {
            DiskErr::Failed => LogErr::Disk,
            DiskErr::Memory => LogErr::Memory,
        }
    }
}
