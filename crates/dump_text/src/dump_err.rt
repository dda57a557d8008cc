// Why a dump was not read.
ghost use Rattle.std.specs.Prelude.{◌≡◌};

use std::alloc::{AllocError, AllocFailed};

/// Why a dump was not read.
#[derive(Clone, Copy, Debug, PartialEq, Eq)]
pub enum DumpErr {
    /// The line with this number, counted from 1, is the first one outside the grammar.
    BadDump { line: u32 },
    /// Out of memory.
    Memory,
}

impl From<AllocError> for DumpErr {
    ghost use Rattle.dump_text.specs.declared.dump_err.DumpErr.{DumpErr};

    ghost from_gives = { λ _ e. e ≡ DumpErr.Memory };

    fn from(_: AllocError) -> DumpErr {
        DumpErr::Memory
    }
}

impl<T: Drop> From<AllocFailed<T>> for DumpErr {
    ghost use Rattle.dump_text.specs.declared.dump_err.DumpErr.{DumpErr};

    ghost from_gives = { λ _ e. e ≡ DumpErr.Memory };

    fn from(_: AllocFailed<T>) -> DumpErr {
        DumpErr::Memory
    }
}
