// The numbers and the kinds of databases, and what indexes are made of.
ghost use Rattle.std.specs.Prelude.{◌≡◌};
ghost use Rattle.db_catalog.specs.Catalog.{db_record_in};
ghost use Rattle.db_catalog.specs.Planning.{is_primary_record};
ghost use Rattle.log_replay.specs.Rows.{catalog_number, catalog_kind, catalog_index};

use db_catalog::{DbKind, DbRecord, index_of as index_in_record, kind_of as kind_in_record};
use store_model::{Extract, Kind};

/// The number in the catalog record of a database, and 0, which is no database's, where the data is no
/// such record.
pub fn number_of(bytes: &[u8]) -> u32
    ensures { result ≡ catalog_number bytes.now }
{
    match DbRecord::from_bytes(bytes) {
        Some(found) => found.number,
        None => 0,
    }
}

/// The kind in such a record, which is `Dup` for an index, and `Plain` where the data is none.
pub fn kind_of(bytes: &[u8]) -> Kind
    ensures { result ≡ catalog_kind bytes.now }
{
    match DbRecord::from_bytes(bytes) {
        Some(found) => kind_in_record(&found.kind),
        None => Kind::Plain,
    }
}

/// Whether an index may be of such a record's database: it is a plain one.
pub fn is_plain(bytes: &[u8]) -> bool
    ensures { result ≡ is_primary_record (db_record_in bytes.now) }
{
    match DbRecord::from_bytes(bytes) {
        Some(found) => matches!(found.kind, DbKind::Plain),
        None => false,
    }
}

/// What such a record makes an index of: the number of its primary and the key; None where the data is
/// no index's record.
pub fn index_of(bytes: &[u8]) -> Option<(u32, Extract)>
    ensures { result ≡ catalog_index bytes.now }
{
    match DbRecord::from_bytes(bytes) {
        Some(found) => index_in_record(&found.kind),
        None => None,
    }
}
