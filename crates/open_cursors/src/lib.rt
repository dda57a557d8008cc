//! The open cursors of an environment's sessions: which numbers each session has open, on which databases, and
//! where they stand. It stands on `je_answers`, whose lists these are: upward it promises that each call
//! leaves them as the standing after the event has them.
#![tactic(auto)]

pub mod open_cursor;
pub mod open_cursors;

pub use open_cursor::OpenCursor;
pub use open_cursors::OpenCursors;
