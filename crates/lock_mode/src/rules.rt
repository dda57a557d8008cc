// Which types conflict, and what an owner holds after an upgrade.
ghost use Rattle.std.specs.Prelude.{◌≡◌};
ghost use Rattle.lock_mode.specs.Modes.{conflicts_with, upgraded, ObeysLaws};

use crate::LockType;

/// Whether a request of type `asked` must wait for another owner that holds `held`. A type that is
/// never held conflicts with nothing. It takes no memory.
pub fn conflicts(held: LockType, asked: LockType) -> bool
    ensures { result ≡ conflicts_with held asked }
{
    match held {
        LockType::Read => matches!(asked, LockType::Write | LockType::RangeWrite),
        LockType::Write => !matches!(asked, LockType::RangeInsert),
        LockType::RangeRead => !matches!(asked, LockType::Read | LockType::RangeRead),
        LockType::RangeWrite => true,
        LockType::RangeInsert => false,
    }
}

/// What an owner of `held` holds once it has been granted `asked` too. It takes no memory.
pub fn upgrade(held: LockType, asked: LockType) -> LockType
    ensures { result ≡ upgraded held asked }
{
    match (held, asked) {
        (LockType::RangeInsert, _) => asked,
        (_, LockType::RangeInsert) => held,
        (LockType::Read, _) => asked,
        (LockType::RangeWrite, _) | (_, LockType::RangeWrite) => LockType::RangeWrite,
        (LockType::Write, LockType::RangeRead) | (LockType::RangeRead, LockType::Write) => {
            LockType::RangeWrite
        }
        (LockType::Write, _) => LockType::Write,
        (LockType::RangeRead, _) => LockType::RangeRead,
    }
}

/// The laws of the two tables, for those who reason above them. It does nothing.
pub fn obey_laws()
    ensures { ObeysLaws }
{}
