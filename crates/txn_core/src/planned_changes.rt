// The changes that a call makes.
use record_tree::TreeChange;
use store_model::Totals;

/// The changes that a call makes, to be logged and then made in this order.
#[derive(Drop)]
pub struct PlannedChanges {
    /// Changes of records, the catalog's (database 0) or one other database's.
    pub changes: Vec<TreeChange>,
    /// The database number allocated last after them, which may be past the last one: the changes then
    /// may not be logged.
    pub last_db: u64,
    /// How many databases and records the committed store then has.
    pub totals: Totals,
    /// The number of the database whose tree goes with the changes: of one that is removed, and the old number of one that
    /// is emptied.
    pub gone: Option<u32>,
}
