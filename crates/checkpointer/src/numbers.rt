// The number of a checkpoint, and where a redo may begin.
ghost use Rattle.std.specs.Prelude.{◌≡◌};
ghost use Rattle.checkpointer.specs.Numbers.{earlier_of, number_after};

use je_lsn::Lsn;

// The number of the next checkpoint.
pub(crate) fn number_after(last: u64) -> u64
    ensures { result ≡ number_after last }
{
    match last.checked_add(1) {
        Some(next) => next,
        None => 1,
    }
}

// The earlier of an LSN and another one, if there is one.
pub(crate) fn earlier_of(start: Lsn, first: Option<Lsn>) -> Lsn
    ensures { result ≡ earlier_of start first }
{
    match first {
        Some(lsn) if lsn < start => lsn,
        _ => start,
    }
}
