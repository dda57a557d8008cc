// How much a store holds.

/// The number of a store's databases, and of all their records.
#[derive(Clone, Copy, Debug, PartialEq, Eq)]
pub struct Totals {
    pub databases: u64,
    pub records: u64,
}
