// How a database keeps its records.
use je_order::Exact;

/// How a database keeps its records.
#[derive(Clone, Copy, Debug, PartialEq, Eq)]
pub enum Kind {
    /// One record for each key.
    Plain,
    /// Sorted duplicates: one record for each pair of key and data.
    Dup,
}

impl Exact for Kind {
    ghost use Rattle.std.proofs.Common.{rules};

    ghost exact = { Prim.search rules };
}
