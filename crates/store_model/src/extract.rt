// Which key an index has for a record.
use je_order::Exact;

/// The greatest offset of a slice of data.
pub const MOST_OFFSET: u32 = 65_535;

/// The most bytes of a slice of data.
pub const MOST_SLICE: u32 = 4_096;

/// Which part of a record's data is its key in an index.
#[derive(Clone, Copy, Debug, PartialEq, Eq)]
pub enum Extract {
    /// The `length` bytes (1 to 4,096) at `offset` (at most 65,535), where the data has them all.
    ByteSlice { offset: u32, length: u32 },
    /// The field with this number, from 0, of the data cut at each byte `separator`; of a field that is
    /// longer than a key may be, its first bytes.
    Field { number: u32, separator: u8 },
}

impl Exact for Extract {
    ghost use Rattle.std.proofs.Common.{rules};

    ghost exact = { Prim.search rules };
}
