// The databases beside that of a call: the primary of an index, and the indexes of a primary.
ghost use Rattle.std.specs.Prelude.{◌≡◌, ◌++◌, IfOk, OnOk, map, unwrap_or};
ghost use Rattle.environment.specs.Beside.{IsTargetBy, as_beside, beside_at, beside_of, beside_over, name_in};

use db_catalog::FoundDb;
use db_names::DbNames;
use index_map::IndexMap;
use je_order::{List, copy_of};
use sessions::NamedDb;
use std::alloc::{AllocError, Global};
use store_model::Kind;
use txn_views::{FoundIndex, FoundTarget};

// The number of the database whose records a database has: an index has those of its primary.
fn records_of(over: Option<u32>, number: u32) -> u32
    ensures { result ≡ unwrap_or over number }
{
    match over {
        Some(primary) => primary,
        None => number,
    }
}

/// A database that was found as the target of a call: with its primary, where it is an index, and the indexes of the database
/// whose records it has.
pub(crate) fn target_at(indexes: &IndexMap, found: FoundDb) -> FoundTarget<'_>
    ensures { IsTargetBy indexes.now found result }
{
    let over = indexes.primary(found.number);
    let indexes = indexes.indexes(records_of(over, found.number));
    FoundTarget {
        db: found,
        over,
        indexes,
    }
}

// A database with its name. A database has one; had it none, this would run out of memory.
fn named(names: &DbNames, number: u32, kind: Kind) -> Result<NamedDb, AllocError>
    ensures { IfOk result (λ d. as_beside d ≡ beside_at (name_in names.now) kind number) }
{
    let Some(name) = names.name(number) else {
        return Err(AllocError);
    };
    let name = copy_of(name)?;
    Ok(NamedDb { number, name, kind })
}

fn primary_of(alloc: Global, names: &DbNames, over: Option<u32>) -> Result<Vec<NamedDb>, AllocError>
    ensures { IfOk result (λ others. map as_beside others.items ≡ beside_over (name_in names.now) over) }
{
    let mut others = Vec::new(alloc);
    if let Some(number) = over {
        others.push(named(names, number, Kind::Plain)?)?;
    }
    Ok(others)
}

/// The databases in which a call on this target may wait beside its own.
pub(crate) fn others_of(
    alloc: Global,
    names: &DbNames,
    over: Option<u32>,
    indexes: &[FoundIndex],
) -> Result<List<NamedDb>, AllocError>
    ensures { IfOk result (λ others. map as_beside others ≡ beside_of (name_in names.now) over indexes.now) }
{
    let mut others = primary_of(alloc, names, over)?;
    for index in indexes {
        others.push(named(names, index.number, Kind::Dup)?)?;
    }
    Ok(List::from_vec(others))
}
