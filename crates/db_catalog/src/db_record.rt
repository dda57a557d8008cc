// The data of a catalog record.
ghost use Rattle.std.specs.Prelude.{◌≡◌, IfOk, IfSome};
ghost use Rattle.db_catalog.specs.declared.db_record.DbRecord.{DbRecord};
ghost use Rattle.db_catalog.specs.Catalog.{IsRecord, record_bytes, db_record_in};

use crate::db_kind::{DbKind, put_kind, read_kind};
use je_bytes::{Reader, put_u32};
use std::alloc::{AllocError, Global};

/// The number of the catalog, whose records are the other databases' names, numbers and kinds.
pub const CATALOG: u32 = 0;

/// A database's number and kind. The number names the database in the log; it is never allocated
/// twice.
#[derive(Clone, Copy, PartialEq, Eq)]
pub struct DbRecord {
    pub number: u32,
    pub kind: DbKind,
}

// The record that the bytes are.
#[tactic(auto, unfolding(crate::specs::Catalog::db_record_in))]
fn read_record(bytes: &[u8]) -> Option<DbRecord>
    ensures { result ≡ db_record_in bytes.now }
{
    let mut reader = Reader::new(bytes);
    let number = reader.u32().ok()?;
    let kind = reader.u8().ok()?;
    let kind = read_kind(kind, reader.rest())?;
    Some(DbRecord { number, kind })
}

impl DbRecord {
    /// The record's bytes: the number in four bytes, the highest first, the kind in one, and the fields
    /// of an index. The only error is out of memory.
    pub fn to_bytes(&self, alloc: Global) -> Result<Vec<u8>, AllocError>
        ensures { IfOk result (λ bytes. bytes.items ≡ record_bytes self.now) }
    {
        let mut bytes = Vec::new(alloc);
        put_u32(&mut bytes, self.number)?;
        put_kind(&mut bytes, &self.kind)?;
        Ok(bytes)
    }

    /// The record that the bytes are, and None exactly where they are no record's bytes: where they
    /// are fewer or more, the kind is none of these, or a slice is outside its limits. It takes no
    /// memory.
    pub fn from_bytes(bytes: &[u8]) -> Option<DbRecord>
        ensures exact { result ≡ db_record_in bytes.now }
        ensures found { IfSome result (λ r. IsRecord r × (bytes.now ≡ record_bytes r)) }
        ensures only { (r : DbRecord) → IsRecord r → bytes.now ≡ record_bytes r → result ≡ Some r }
    {
        read_record(bytes)
    }
}
