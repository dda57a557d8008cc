// What a put does where there is a record.

/// Where a put does not overwrite.
#[derive(Clone, Copy, Debug, PartialEq, Eq)]
pub enum PutMode {
    /// It always writes.
    Overwrite,
    /// It writes only where the key has no record.
    NoOverwrite,
    /// It writes only where the key has no record with this data; for databases of sorted duplicates.
    NoDupData,
}
