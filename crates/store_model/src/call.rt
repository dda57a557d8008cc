// A call of a session.
use crate::{Durability, Index, Isolation, Kind, Motion, PutMode};
use je_order::{Octets, Word};

/// A call, as a line of a script gives it. Outside a transaction each is a transaction of its own, which
/// is synced. Cursors have numbers from 1 to 8 in each session.
#[derive(Drop, PartialEq, Eq)]
pub enum Call {
    /// Begins a transaction. With `wait` its calls wait for locks.
    Begin {
        level: Isolation,
        durability: Durability,
        wait: bool,
    },
    /// Commits the session's transaction, and closes its cursors.
    Commit,
    /// Ends the session's transaction without its changes, and closes its cursors.
    Abort,
    /// The names of all databases.
    List,
    /// Makes a database.
    Create {
        db: Word,
        kind: Kind,
    },
    /// Makes an index of a plain database, and fills it.
    CreateIndex {
        db: Word,
        index: Index,
    },
    /// Takes a database out, with its records.
    Remove {
        db: Word,
    },
    /// Gives a database another name; its records stay.
    Rename {
        db: Word,
        to: Word,
    },
    /// Takes all records of a database out.
    Truncate {
        db: Word,
    },
    /// Reads a key's first record; `rmw` announces a write of it.
    Get {
        db: Word,
        key: Octets,
        rmw: bool,
    },
    /// Reads the record of a key and data.
    GetBoth {
        db: Word,
        key: Octets,
        value: Octets,
        rmw: bool,
    },
    /// Sets a key's data, or adds a duplicate.
    Put {
        db: Word,
        key: Octets,
        value: Octets,
        mode: PutMode,
    },
    /// Takes all records of a key out.
    Delete {
        db: Word,
        key: Octets,
    },
    /// Opens a cursor on a database, at no record.
    Open {
        cursor: u8,
        db: Word,
    },
    /// Closes a cursor.
    Close {
        cursor: u8,
    },
    /// Opens the cursor `to` where another one stands.
    Dup {
        cursor: u8,
        to: u8,
    },
    /// How many records the key has at which the cursor stands.
    Count {
        cursor: u8,
    },
    /// Moves a cursor, and reads the record there.
    Cur {
        cursor: u8,
        motion: Motion,
        rmw: bool,
    },
    /// Sets the data of the record at which the cursor stands.
    CPutCur {
        cursor: u8,
        value: Octets,
    },
    /// Takes the record out at which the cursor stands; the cursor stays there.
    CDel {
        cursor: u8,
    },
    /// A put, after which the cursor stands at what it wrote.
    CPut {
        cursor: u8,
        key: Octets,
        value: Octets,
        mode: PutMode,
    },
}
