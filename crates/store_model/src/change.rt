// What a call changes.
use crate::{Index, Kind};
use je_order::{Name, Octets, Word};

/// One change of a store.
#[derive(Drop)]
pub enum Change {
    /// Sets a name of a database to data.
    Set { db: Word, at: Name, value: Octets },
    /// Takes a name out of a database.
    Unset { db: Word, at: Name },
    /// Makes an empty database.
    Make { db: Word, kind: Kind },
    /// Makes an index without pairs.
    MakeIndex { db: Word, index: Index },
    /// Takes a database out.
    Remove { db: Word },
    /// Gives a database another name.
    Rename { db: Word, to: Word },
    /// Takes all records of a database out.
    Empty { db: Word },
}
