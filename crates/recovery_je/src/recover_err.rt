// Why an environment was not recovered.
use crate::read_err::ReadErr;
use je_disk::DiskErr;
use je_order::Word;
use log_replay::Corruption;
use record_tree::LoadErr;
use std::alloc::AllocError;

/// Why an environment was not recovered. Its files are as they were.
#[derive(Debug, Drop)]
pub enum RecoverErr {
    /// The disk failed.
    Disk,
    /// Out of memory.
    Memory,
    /// The first corruption in the order of reading.
    Corrupt(Corruption),
    /// There is no corruption, but the pairs of the index of that name, the first one in name order, are not those of its
    /// primary's records.
    WrongIndex(Word),
}

impl From<AllocError> for RecoverErr {
    ghost use Rattle.std.specs.Prelude.{◌≡◌};
    ghost use Rattle.recovery_je.specs.declared.recover_err.RecoverErr.TheVariants.{Memory};

    ghost from_gives = { λ _ e. e ≡ Memory };

    fn from(_: AllocError) -> RecoverErr {
        RecoverErr::Memory
    }
}

impl From<LoadErr> for RecoverErr {
    ghost use Rattle.std.specs.Prelude.{◌≡◌};
    ghost use Rattle.recovery_je.specs.declared.recover_err.RecoverErr.TheVariants.{Memory};

    ghost from_gives = { λ _ e. e ≡ Memory };

    fn from(failure: LoadErr) -> RecoverErr {
        match failure {
            LoadErr::Memory => RecoverErr::Memory,
        }
    }
}

impl From<DiskErr> for RecoverErr {
    ghost use Rattle.std.specs.Prelude.{◌≡◌};
    ghost use Rattle.recovery_je.specs.Answer.{disk_error};

    ghost from_gives = { λ failure e. e ≡ disk_error failure };

    fn from(failure: DiskErr) -> RecoverErr {
        match failure {
            DiskErr::Failed => RecoverErr::Disk,
            DiskErr::Memory => RecoverErr::Memory,
        }
    }
}

impl From<ReadErr> for RecoverErr {
    ghost use Rattle.std.specs.Prelude.{◌≡◌};
    ghost use Rattle.recovery_je.specs.Answer.{read_error};

    ghost from_gives = { λ failure e. e ≡ read_error failure };

    fn from(failure: ReadErr) -> RecoverErr {
        match failure {
            ReadErr::Memory => RecoverErr::Memory,
            ReadErr::Found(corruption) => RecoverErr::Corrupt(corruption),
        }
    }
}
