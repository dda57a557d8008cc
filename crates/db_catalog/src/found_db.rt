// What the catalog tells a planner of records.
ghost use Rattle.std.specs.Prelude.{◌≡◌, IfOk};
ghost use Rattle.store_model.specs.Store.{database_of};
ghost use Rattle.db_catalog.specs.Planning.{found_in, kind_of_catalog, index_of_catalog, IsFoundAs};

use crate::{CatalogView, DbKind, DbRecord};
use je_order::Word;
use std::alloc::{AllocError, Global};
use store_model::{Extract, Kind};

/// A database's number, which names it in the log, in locks and where cursors stand, and how it keeps
/// its records; an index keeps sorted duplicates.
#[derive(Clone, Copy, PartialEq, Eq)]
pub struct FoundDb {
    pub number: u32,
    pub kind: Kind,
}

/// What a database is an index of: the number of its primary, and the key that it has for each record;
/// None where it is no index.
pub fn index_of(kind: &DbKind) -> Option<(u32, Extract)>
    ensures { result ≡ index_of_catalog kind.now }
{
    match kind {
        DbKind::Plain | DbKind::Dup => None,
        DbKind::SliceIndex {
            primary,
            offset,
            len,
        } => {
            let extract = Extract::ByteSlice {
                offset: *offset,
                length: *len,
            };
            Some((*primary, extract))
        }
        DbKind::FieldIndex {
            primary,
            number,
            separator,
        } => {
            let extract = Extract::Field {
                number: *number,
                separator: *separator,
            };
            Some((*primary, extract))
        }
    }
}

/// How a database keeps its records.
pub fn kind_of(kind: &DbKind) -> Kind
    ensures { result ≡ kind_of_catalog kind.now }
{
    match kind {
        DbKind::Plain => Kind::Plain,
        DbKind::Dup | DbKind::SliceIndex { .. } | DbKind::FieldIndex { .. } => Kind::Dup,
    }
}

fn found_in(row: Option<DbRecord>) -> Option<FoundDb>
    ensures { result ≡ found_in row }
{
    let row = row?;
    Some(FoundDb {
        number: row.number,
        kind: kind_of(&row.kind),
    })
}

fn look_up<V: CatalogView>(
    alloc: Global,
    view: &V,
    name: &Word,
) -> Result<Option<FoundDb>, AllocError>
    ensures { IfOk result (λ found. found ≡ found_in (V.record_of view.now name.now)) }
{
    let row = view.row(alloc, name)?;
    Ok(found_in(row))
}

/// The number and the kind of the database of a name, in one look-up of the catalog; None exactly
/// where the caller sees no database of that name. The only error is out of memory.
pub fn find_db<V: CatalogView>(
    alloc: Global,
    view: &V,
    name: &Word,
) -> Result<Option<FoundDb>, AllocError>
    ensures exact { IfOk result (λ found. found ≡ found_in (V.record_of view.now name.now)) }
    ensures seen { IfOk result (λ found. IsFoundAs (database_of name.now (V.seen view.now)) found) }
{
    look_up(alloc, view, name)
}
