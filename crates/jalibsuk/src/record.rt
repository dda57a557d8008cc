// A record.
use je_order::Octets;

/// A record: its key and its data. An index gives the record that it finds, under the record's own key.
#[derive(Debug, Drop, PartialEq, Eq)]
pub struct Record {
    pub key: Octets,
    pub data: Octets,
}
