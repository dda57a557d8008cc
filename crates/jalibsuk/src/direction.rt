// The order of a scan.

/// The order in which a scan gives records.
#[derive(Clone, Copy, Debug, PartialEq, Eq)]
pub enum Direction {
    /// By rising keys, and a key's records by rising data.
    Forward,
    /// By falling keys, and a key's records by falling data.
    Backward,
}
