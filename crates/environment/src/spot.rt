// Where a cursor stands.
use db_catalog::FoundDb;
use je_order::{Name, Word};

/// A cursor's database, by its name, and the record in it at which the cursor stands.
#[derive(Drop)]
pub(crate) struct Spot {
    pub(crate) name: Word,
    pub(crate) found: FoundDb,
    pub(crate) at: Option<Name>,
}
