// An index of a database.
use store_model::Extract;

/// An index of a database: its number, and which key it has for a record.
#[derive(Clone, Copy)]
pub struct FoundIndex {
    pub number: u32,
    pub extract: Extract,
}
