// A pair of a dump.
use je_order::Octets;

/// A pair of a dump: the number of its key's line (from 1), the key, and the data.
#[derive(Drop)]
pub struct DumpPair {
    pub line: u32,
    pub key: Octets,
    pub value: Octets,
}
