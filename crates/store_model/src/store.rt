// A store.
use crate::{Index, Kind};
use je_order::{Exact, List, Octets, Word};
use std::alloc::Global;

/// A database: its name, its kind, what it is an index of, if it is one, and its records as pairs of
/// key and data, in byte order of the keys, and of the data where keys are equal. An index is kept as
/// sorted duplicates: its pairs are of the key that it has for a record and of the key of the record.
#[derive(Clone, Debug, Drop, PartialEq, Eq)]
pub struct Database {
    pub name: Word,
    pub kind: Kind,
    pub index: Option<Index>,
    pub pairs: List<(Octets, Octets)>,
}

impl Exact for Database {
    ghost use Rattle.std.proofs.Common.{rules};
    ghost use Rattle.store_model.specs.contracts.kind.KindExact.TheImpl.Laws as kind;

    ghost exact = { λ x y h. Prim.search (rules, kind.exact-law x.kind y.kind h.1.0) };
}

/// What an environment holds at one moment, without numbers, log or locks: its databases, in byte
/// order of their names.
#[derive(Clone, Debug, Drop, PartialEq, Eq)]
pub struct Store {
    pub databases: List<Database>,
}

impl Exact for Store {
    ghost use Rattle.std.proofs.Common.{rules};

    ghost exact = { Prim.search rules };
}

impl Store {
    ghost use Rattle.std.specs.Prelude.{◌≡◌};
    ghost use Rattle.store_model.specs.Store.{no_databases};

    /// The store of a new environment. It takes no memory.
    pub fn new(alloc: Global) -> Store
        ensures { result ≡ no_databases }
    {
        Store {
            databases: List::new(alloc),
        }
    }
}

/// The most databases that a store may have.
pub const MOST_DATABASES: u32 = 1_000;

/// The last number that a database may have.
pub const LAST_DATABASE: u32 = 0xffff_ffff;

/// The last number that a transaction may have: 2^63 - 1.
pub const LAST_TXN: u64 = 0x7fff_ffff_ffff_ffff;

/// The most bytes that a record's data may have, in a database of sorted duplicates.
pub const DUP_LIMIT: usize = 4_096;
