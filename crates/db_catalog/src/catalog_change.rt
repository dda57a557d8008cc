// A change of the catalog's records.
use crate::DbRecord;
use je_order::Word;

/// A change of one record of the catalog: what is logged in database 0.
#[derive(Drop, PartialEq, Eq)]
pub enum CatalogChange {
    /// Sets the record of a name.
    Put { db: Word, row: DbRecord },
    /// Takes the record of a name out.
    Delete { db: Word },
}
