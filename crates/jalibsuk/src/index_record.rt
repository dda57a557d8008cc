// A record that an index has.
use je_order::Octets;

/// A record that an index has: the key under which the index has it, the record's own key in its database, and its data.
#[derive(Debug, Drop, PartialEq, Eq)]
pub struct IndexRecord {
    pub key: Octets,
    pub primary_key: Octets,
    pub data: Octets,
}
