// A log file's number.

/// The greatest number of a log file.
pub const LAST_FILE: u32 = 0xffff_fffe;

/// A log file's number, from 0. Later files have greater numbers. The greatest number, 0xffffffff,
/// names no file.
#[derive(Clone, Copy, Debug, PartialEq, Eq, PartialOrd, Ord, Hash)]
pub struct FileNo(pub u32);

impl je_order::Exact for FileNo {
    ghost use Rattle.std.proofs.Common.{rules};

    ghost exact = { Prim.search rules };
}
