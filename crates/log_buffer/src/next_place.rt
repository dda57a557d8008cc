// Where entries go that are to be appended.
ghost use Rattle.std.specs.Prelude.{◌<◌, ◌^◌};

use crate::LogPos;

/// Where the next entry of a log goes, worked out before it is appended: `LogBuffer::next_place` gives it, and
/// `take` goes on behind an entry. The log itself stays as it is.
#[derive(Clone, Copy, Debug, PartialEq, Eq)]
pub struct NextPlace {
    /// Where the log ends then.
    pub(crate) end: LogPos,
    /// The greatest size in bytes of a file that holds more than one entry behind its header.
    pub(crate) file_max: u32,
    ghost offset: { end.offset < 2 ^ 33 },
}
