// A database by its number, its name and its kind.
use je_order::{Exact, Word};
use store_model::Kind;

/// A database in which a call may wait beside its own: the primary of an index, or an index of a primary.
#[derive(Clone, Drop)]
pub struct NamedDb {
    pub number: u32,
    pub name: Word,
    pub kind: Kind,
}

impl Exact for NamedDb {
    ghost use Rattle.std.proofs.Common.{rules};
    ghost use Rattle.store_model.specs.contracts.kind.KindExact.TheImpl.Laws as kind;

    ghost exact = { λ x y h. Prim.search (rules, kind.exact-law x.kind y.kind h.1.1) };
}
