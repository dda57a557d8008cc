// A change of a name.
use je_order::Octets;
use record_map::SortKey;

/// A change of a name of a database: the record's new data, or none where it is deleted. A change of the catalog that makes a
/// database has its number, and that database's tree begins with it.
#[derive(Drop)]
pub struct TreeChange {
    pub db: u32,
    pub name: SortKey,
    pub value: Option<Octets>,
    pub makes: Option<u32>,
}
