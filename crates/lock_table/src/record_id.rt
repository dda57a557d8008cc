// What a lock stands on.
use je_order::Bound;

/// A record of a database by its number, or the end behind all its records. Records come by database
/// and then in name order.
#[derive(Clone, Debug, Drop, PartialEq, Eq, PartialOrd, Ord, Hash)]
pub struct RecordId {
    pub db: u32,
    pub at: Bound,
}

impl je_order::Exact for RecordId {
    ghost use Rattle.std.proofs.Common.{rules};
    ghost use Rattle.je_order.specs.contracts.bound.BoundExact.TheImpl.Laws as bound;

    ghost exact = { λ x y h. Prim.search (rules, bound.exact-law) };
}
