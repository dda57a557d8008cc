// Why a program ended as it did.
ghost use Rattle.std.specs.Prelude.{◌≡◌};
ghost use Rattle.je_program.specs.Run.{status_of, unwritten_status_of};

use je_order::Word;
use log_replay::Corruption;
use std::alloc::AllocError;

/// Why a program ended as it did, before its output was written. Each has a status and a fault line of
/// its own (docs/ANSWERS.md).
#[derive(Drop, PartialEq, Eq)]
pub enum Cause {
    /// All was done: 0, and no fault line.
    Done,
    /// The arguments are invalid: 2.
    Usage,
    /// This line of the script is the first that is outside the grammar: 3.
    BadScript { line: u32 },
    /// This line of the dump is the first that is outside the grammar: 3.
    BadDump { line: u32 },
    /// The disk failed: 4.
    Disk,
    /// The files at entry cannot be opened; this is the first corruption in the order of reading:
    /// 5.
    Unreadable(Corruption),
    /// The files at entry can be read, but the index of that name, the first in name order, has not the pairs of
    /// its primary's records: 5.
    WrongIndex(Word),
    /// Out of memory: 6.
    Memory,
    /// A check of the files found what is wrong with them: 9. Its text says so, and there is no fault line.
    Findings,
    /// No environment is there, and the command makes none: 10.
    NoEnvironment,
    /// The environment has no database of the name that the command was given; or, of a dump that is loaded, it is an
    /// index, or it is not there and no more may be made: 10.
    NoDatabase,
    /// The database into which a dump is loaded has sorted duplicates and the dump says that it has none, or the other
    /// way round; this line of the dump says so: 3.
    OtherKind { line: u32 },
    /// The pair of the dump whose key stands in this line was refused, and not for want of room, memory or a disk: 3.
    RefusedPair { line: u32 },
    /// The input failed: 7.
    Input,
    /// The input has more bytes than an input may have: 11.
    InputTooLong,
    /// A call was answered LogFull: 12.
    LogFull,
    /// A call was answered IdsEnded: 12.
    IdsEnded,
}

impl Cause {
    /// The status that a process ends with.
    pub fn status(&self) -> u8
        ensures { result ≡ status_of self.now }
    {
        match self {
            Cause::Done => 0,
            Cause::Usage => 2,
            Cause::BadScript { .. } | Cause::BadDump { .. } => 3,
            Cause::OtherKind { .. } | Cause::RefusedPair { .. } => 3,
            Cause::Disk => 4,
            Cause::Unreadable(_) | Cause::WrongIndex(_) => 5,
            Cause::Memory => 6,
            Cause::Input => 7,
            Cause::Findings => 9,
            Cause::NoEnvironment | Cause::NoDatabase => 10,
            Cause::InputTooLong => 11,
            Cause::LogFull | Cause::IdsEnded => 12,
        }
    }

    /// The status that a process ends with whose output could not be written.
    pub fn unwritten_status(&self) -> u8
        ensures { result ≡ unwritten_status_of self.now }
    {
        match self {
            Cause::Memory => 6,
            _ => 8,
        }
    }
}

impl From<AllocError> for Cause {
    ghost use Rattle.std.specs.Prelude.{◌≡◌};
    ghost use Rattle.je_program.specs.declared.cause.Cause.TheVariants.{Memory};

    ghost from_gives = { λ _ cause. cause ≡ Memory };

    fn from(_: AllocError) -> Cause {
        Cause::Memory
    }
}
