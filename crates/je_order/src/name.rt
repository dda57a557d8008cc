// A record's name.
use crate::Octets;

/// A record's place in its database: the key, and beside it the dup, which is the data in a database
/// of sorted duplicates, the primary key in an index, and empty in a plain database.
#[derive(Clone, Debug, Drop, PartialEq, Eq, PartialOrd, Ord, Hash)]
pub struct Name {
    pub key: Octets,
    pub dup: Octets,
}

impl crate::Exact for Name {
    ghost use Rattle.std.proofs.Common.{rules};

    ghost exact = { Prim.search rules };
}
