// The limits of records and nodes (this project's own).

/// The most bytes that a key or a dup may have.
pub const KEY_LIMIT: usize = 4_096;

/// The most bytes that a record's data may have, in a plain database.
pub const VALUE_LIMIT: usize = 65_536;

/// The most slots that a node may have.
pub const SLOT_LIMIT: usize = 128;
