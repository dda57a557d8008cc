// A walk over records.
ghost use Rattle.std.specs.Prelude.{◌≡◌, Option as Maybe};
ghost use Rattle.jalibsuk.specs.Scans.{first_of, left_after, next_of, place_of};

use crate::{Direction, Error, Keys, Seek};

/// A walk of a session's cursor over the records of some keys.
#[derive(Clone, Copy)]
pub(crate) struct Walk<'k> {
    pub(crate) session: u8,
    pub(crate) number: u8,
    pub(crate) direction: Direction,
    pub(crate) keys: Keys<'k>,
    // The motion to be made.
    pub(crate) seek: Seek<'k>,
    // More steps than there can be records; none behind the last record.
    pub(crate) left: u64,
}

// What is to be found before the first motion: where a walk goes down from a key, the first record that is not below it.
pub(crate) fn place_of(direction: Direction, keys: Keys) -> Option<Seek>
    ensures { result ≡ place_of direction keys.entry }
{
    match (direction, keys) {
        (Direction::Backward, Keys::Before(to)) => Some(Seek::Range(to)),
        (Direction::Backward, Keys::Between(_, to)) => Some(Seek::Range(to)),
        _ => None,
    }
}

// The first motion.
pub(crate) fn first_of(direction: Direction, keys: Keys) -> Seek
    ensures { result ≡ first_of direction keys.entry }
{
    match (direction, keys) {
        (Direction::Forward, Keys::From(from)) => Seek::Range(from),
        (Direction::Forward, Keys::Between(from, _)) => Seek::Range(from),
        (Direction::Forward, _) => Seek::Next,
        (Direction::Backward, _) => Seek::Prev,
    }
}

// Each other motion.
pub(crate) fn next_of<'k>(direction: Direction) -> Seek<'k>
    ensures { result ≡ next_of direction }
{
    match direction {
        Direction::Forward => Seek::Next,
        Direction::Backward => Seek::Prev,
    }
}

// How many steps are left once a walk has given this.
pub(crate) fn left_after<R>(left: u64, item: &Option<Result<R, Error>>) -> u64
    ensures { result ≡ left_after left item.now }
{
    match item {
        Some(Ok(_)) => left.saturating_sub(1),
        _ => 0,
    }
}
