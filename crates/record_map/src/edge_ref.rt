// Where a search begins or ends.
use crate::SortKey;

/// An edge between the names of a database.
#[derive(Clone, Copy)]
pub enum EdgeRef<'a> {
    /// In front of all names.
    First,
    /// In front of the name.
    At(&'a SortKey),
    /// Right behind the name.
    Behind(&'a SortKey),
    /// Behind all names.
    End,
}
