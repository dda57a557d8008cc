// Where a cursor moves.
use je_order::Octets;

/// Where a cursor moves before it reads (Getting Started Guide, "Cursors").
#[derive(Drop, PartialEq, Eq)]
pub enum Motion {
    First,
    Last,
    /// The next record; from none, the first.
    Next,
    /// The record before; from none, the last.
    Prev,
    /// The next record of the same key.
    NextDup,
    /// The record before of the same key.
    PrevDup,
    /// The first record of the next key; from none, the first.
    NextNoDup,
    /// The last record of the key before; from none, the last.
    PrevNoDup,
    /// Where it stands.
    Current,
    /// The first record of a key.
    Key { key: Octets },
    /// The first record with this key or a greater one.
    Range { key: Octets },
    /// The record of a key and data.
    Both { key: Octets, value: Octets },
    /// The first record of a key with this data or greater data; in a plain database as `Both`.
    BothRange { key: Octets, value: Octets },
}
