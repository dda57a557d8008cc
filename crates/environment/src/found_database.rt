// What is known of a database.
use store_model::Kind;

/// A database of a store: how it keeps its records, whether it is an index, and the number under which an environment
/// has its records.
#[derive(Clone, Copy)]
pub struct FoundDatabase {
    pub number: u32,
    pub kind: Kind,
    pub is_index: bool,
}
