// Why a log was not read.
use log_replay::Corruption;
use record_tree::LoadErr;
use std::alloc::AllocError;

/// Why a log was not read: out of memory, or the first corruption.
#[derive(Clone, Copy)]
pub(crate) enum ReadErr {
    Memory,
    Found(Corruption),
}

impl From<AllocError> for ReadErr {
    ghost use Rattle.std.specs.Prelude.{◌≡◌};
    ghost use Rattle.recovery_je.specs.declared.read_err.ReadErr.TheVariants.{Memory};

    ghost from_gives = { λ _ e. e ≡ Memory };

    fn from(_: AllocError) -> ReadErr {
        ReadErr::Memory
    }
}

impl From<LoadErr> for ReadErr {
    ghost use Rattle.recovery_je.specs.Recovering.{IsOtherErr};

    ghost from_gives = { λ _ e. IsOtherErr e };

    fn from(failure: LoadErr) -> ReadErr {
        match failure {
            LoadErr::Memory => ReadErr::Memory,
        }
    }
}
