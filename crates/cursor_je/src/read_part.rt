// What the read of a call locks.
ghost use Rattle.std.specs.Prelude.{◌≡◌, Some};
ghost use Rattle.store_model.specs.Needs.{read_part, rmw_part, write_part, part_of_read, part_of_put, part_of};
ghost use Rattle.cursor_je.specs.Reaches.{part_in};

use lock_mode::LockType;
use store_model::{Call, Isolation, PutMode};

/// The type for the names that a read passes, and the one for the first place behind them, if that is locked.
#[derive(Clone, Copy)]
pub struct ReadPart {
    pub inside: LockType,
    pub behind: Option<LockType>,
}

fn part(inside: LockType, behind: Option<LockType>) -> Option<ReadPart>
    ensures { result ≡ Some (record { inside = inside; behind = behind }) }
{
    Some(ReadPart { inside, behind })
}

fn read_part(level: Isolation) -> Option<ReadPart>
    ensures { part_in result ≡ read_part level }
{
    match level {
        Isolation::ReadUncommitted => None,
        Isolation::ReadCommitted => part(LockType::Read, None),
        Isolation::RepeatableRead => part(LockType::Read, None),
        Isolation::Serializable => part(LockType::RangeRead, Some(LockType::RangeRead)),
    }
}

fn rmw_part(level: Isolation) -> Option<ReadPart>
    ensures { part_in result ≡ rmw_part level }
{
    match level {
        Isolation::Serializable => part(LockType::RangeWrite, Some(LockType::RangeWrite)),
        _ => part(LockType::Write, None),
    }
}

fn write_part(level: Isolation) -> Option<ReadPart>
    ensures { part_in result ≡ write_part level }
{
    match level {
        Isolation::Serializable => part(LockType::RangeWrite, Some(LockType::RangeRead)),
        _ => part(LockType::Write, None),
    }
}

fn part_of_read(rmw: bool, level: Isolation) -> Option<ReadPart>
    ensures { part_in result ≡ part_of_read rmw level }
{
    if rmw {
        return rmw_part(level);
    }
    read_part(level)
}

fn part_of_put(mode: PutMode, level: Isolation) -> Option<ReadPart>
    ensures { part_in result ≡ part_of_put mode level }
{
    match mode {
        PutMode::Overwrite => None,
        PutMode::NoOverwrite => write_part(level),
        PutMode::NoDupData => write_part(level),
    }
}

/// What the read of a call locks at a level; None where it reads nothing, or locks nothing that it reads.
pub fn part_of(level: Isolation, call: &Call) -> Option<ReadPart>
    ensures { part_in result ≡ part_of level call.now }
{
    match call {
        Call::Get { rmw, .. } => part_of_read(*rmw, level),
        Call::GetBoth { rmw, .. } => part_of_read(*rmw, level),
        Call::Put { mode, .. } => part_of_put(*mode, level),
        Call::Delete { .. } => write_part(level),
        Call::Count { .. } => read_part(level),
        Call::Cur { rmw, .. } => part_of_read(*rmw, level),
        Call::CDel { .. } => write_part(level),
        Call::CPut { mode, .. } => part_of_put(*mode, level),
        _ => None,
    }
}
