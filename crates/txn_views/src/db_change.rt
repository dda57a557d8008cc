// A change and its database.
use db_catalog::FoundDb;
use store_model::RecordChange;

/// A change of a record, and the database that it is in.
#[derive(Drop)]
pub struct DbChange {
    pub db: FoundDb,
    pub change: RecordChange,
}
