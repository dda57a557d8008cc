// A name of a database.
use record_map::SortKey;

/// A name of the database with that number.
#[derive(Drop)]
pub struct TreeName {
    pub db: u32,
    pub name: SortKey,
}
