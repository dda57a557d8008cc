// What became of changes.
use je_lsn::Lsn;

/// What became of changes that were to be logged.
#[derive(Clone, Copy)]
pub(crate) enum Wrote {
    // They are logged.
    Done,
    // The log has no room for them.
    Full,
    // No number is left of a node or a level that they need.
    NoNumbers,
    // The disk failed.
    Failed,
}

/// What became of changes that were to be made in the trees and logged.
#[derive(Clone, Copy)]
pub(crate) enum TreesWrote {
    // They are logged, the first one at this LSN; 0 where there are none.
    Done(Lsn),
    // The log has no room for them.
    Full,
    // The disk failed.
    Failed,
}
