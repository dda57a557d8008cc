// The count of a database's records.
use je_order::Word;

/// A database and how many of its records are right.
#[derive(Drop)]
pub struct DatabaseCount {
    pub name: Word,
    pub records: u64,
}
