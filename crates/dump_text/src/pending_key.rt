// A key whose data comes next.
use je_order::Octets;

/// A key of a dump whose data is still to be read, with the number of its line.
#[derive(Drop)]
pub struct PendingKey {
    pub line: u32,
    pub key: Octets,
}
