// A node's slot.
ghost use Rattle.std.specs.Prelude.{◌≡◌};
ghost use Rattle.node_core.specs.Changes.{is_committed};

use je_lsn::Lsn;
use je_order::Name;

/// What a slot says of its name.
#[derive(Clone, Copy, Debug, PartialEq, Eq)]
pub enum Version {
    /// In a BIN: the record's last committed change is the entry there. In an IN: the child's last image
    /// is the entry there.
    There(Lsn),
    /// The record was deleted by a transaction that committed. An IN has no such slot.
    Deleted,
    /// Nothing is committed: an active transaction made the slot, or the child was never logged. Such a
    /// slot is never logged.
    Unset,
}

impl Version {
    /// Whether a log entry can show the version: it is there, or deleted.
    pub fn is_committed(self) -> bool
        ensures { result ≡ is_committed self }
    {
        !matches!(self, Version::Unset)
    }
}

impl je_order::Exact for Version {
    ghost use Rattle.std.proofs.Common.{rules};

    ghost exact = { Prim.search rules };
}

/// A name with its version. In an IN the name is the least that the child may hold.
#[derive(Clone, Debug, Drop, PartialEq, Eq)]
pub struct Slot {
    pub name: Name,
    pub version: Version,
}

impl je_order::Exact for Slot {
    ghost use Rattle.std.proofs.Common.{rules};
    ghost use Rattle.je_order.specs.contracts.name.NameExact.TheImpl.Laws as name;

    ghost exact = { Prim.search (rules, name.exact-law) };
}

/// A slot, and whether its version was set since the node was last logged in full.
#[derive(Debug, Drop, PartialEq, Eq)]
pub struct Marked {
    pub slot: Slot,
    pub changed: bool,
}
