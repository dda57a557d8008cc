// Where a search begins or ends.
ghost use Rattle.std.specs.Prelude.{◌≡◌, true};
ghost use Rattle.je_order.specs.Edges.{is_below};
ghost use Rattle.je_order.specs.Edges.Edge.{Behind};
ghost use Rattle.cursor_je.specs.Looks.{name_in, edge_in};

use crate::NameRef;
use je_order::cmp_bytes;

/// An edge between the names of a database.
#[derive(Clone, Copy)]
pub enum NameEdge<'a> {
    /// In front of all names.
    First,
    /// In front of the name.
    At(NameRef<'a>),
    /// Right behind the name.
    Behind(NameRef<'a>),
    /// Behind all names of the key.
    BehindKey(&'a [u8]),
    /// Behind all names.
    End,
}

impl<'a> NameEdge<'a> {
    /// Whether a name is below the edge.
    #[tactic(auto, using(crate::proofs::EdgeLaws::below_behind_key))]
    pub fn is_above(&self, name: &NameRef<'_>) -> bool
        ensures { result ≡ is_below (edge_in self.now) (name_in name.now) }
    {
        match self {
            NameEdge::First => false,
            NameEdge::At(edge) => edge.cmp_name(name).is_gt(),
            NameEdge::Behind(edge) => edge.cmp_name(name).is_ge(),
            NameEdge::BehindKey(key) => cmp_bytes(key, name.key).is_ge(),
            NameEdge::End => true,
        }
    }

    /// Whether it is right behind the name.
    pub fn is_behind(&self, name: &NameRef<'_>) -> bool
        ensures { result ≡ true → edge_in self.now ≡ Behind (name_in name.now) }
    {
        match self {
            NameEdge::Behind(edge) => edge.cmp_name(name).is_eq(),
            _ => false,
        }
    }
}
