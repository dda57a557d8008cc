// A place to lock.
use crate::Name;

/// A place in a database that a lock can stand on: a record's name, or the end behind all names.
/// Names come in name order, and the end is last.
#[derive(Clone, Debug, Drop, PartialEq, Eq, PartialOrd, Ord, Hash)]
pub enum Bound {
    At(Name),
    End,
}

impl crate::Exact for Bound {
    ghost use Rattle.std.proofs.Common.{rules};
    ghost use Rattle.je_order.specs.contracts.name.NameExact.TheImpl.Laws as name;

    ghost exact = { λ x y h. Prim.search (rules, name.exact-law) };
}
