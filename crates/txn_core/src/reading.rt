// The committed records of trees.
ghost use Rattle.std.specs.Prelude.{◌≡◌, IfSome, option_map, option_copied};
ghost use Rattle.record_map.specs.Cells.{value_at, IsRising, first_of, last_of, from_edge, below_edge, edge_of};
ghost use Rattle.record_tree.specs.Occupied.{occupied_by};
ghost use Rattle.log_replay.specs.Rows.{data_at};
ghost use Rattle.txn_core.specs.Known.{committed};

use node_core::Version;
use record_map::{Cell, Data, EdgeRef, SortKey};
use record_tree::Records;

/// The committed data in a cell, if a record is committed.
pub fn committed_in(cell: &Cell) -> Option<&Data>
    ensures { option_map (λ d. d.now) result ≡ (occupied_by cell.now).value }
{
    match cell.version {
        Version::There(_) => Some(&cell.data),
        Version::Deleted | Version::Unset => None,
    }
}

/// The cell of the name, where it is occupied, with the name as it is held.
pub fn cell_at<'a, T: Records>(
    trees: &'a T,
    db: u32,
    name: &SortKey,
) -> Option<(&'a SortKey, &'a Cell)>
    ensures name { IfSome result (λ p. p.0.now ≡ name.now) }
    ensures found { option_map (λ p. occupied_by p.1.now) result ≡ value_at name.now (T.cells trees.now db) }
    ensures rising { IsRising (T.cells trees.now db) }
{
    match trees.get(db, name) {
        Ok(found) => found,
        Err(_) => unreachable!(),
    }
}

/// The first occupied name that is not below the edge.
pub fn cell_from<'a, T: Records>(
    trees: &'a T,
    db: u32,
    from: EdgeRef<'_>,
) -> Option<(&'a SortKey, &'a Cell)>
    ensures found { option_map (λ p. (p.0.now, occupied_by p.1.now)) result ≡ first_of (from_edge (edge_of from.entry) (T.cells trees.now db)) }
    ensures rising { IsRising (T.cells trees.now db) }
{
    match trees.next(db, from) {
        Ok(found) => found,
        Err(_) => unreachable!(),
    }
}

/// The last occupied name below the edge.
pub fn cell_below<'a, T: Records>(
    trees: &'a T,
    db: u32,
    upto: EdgeRef<'_>,
) -> Option<(&'a SortKey, &'a Cell)>
    ensures found { option_map (λ p. (p.0.now, occupied_by p.1.now)) result ≡ last_of (below_edge (edge_of upto.entry) (T.cells trees.now db)) }
    ensures rising { IsRising (T.cells trees.now db) }
{
    match trees.last_below(db, upto) {
        Ok(found) => found,
        Err(_) => unreachable!(),
    }
}

/// The data of the name in the database of that number, and None where no such record is committed.
pub fn data_of<'a, T: Records>(trees: &'a T, db: u32, name: &SortKey) -> Option<&'a [u8]>
    ensures { option_copied result ≡ data_at name.now (committed (T.cells trees.now) db) }
{
    match cell_at(trees, db, name) {
        Some((_, cell)) => match committed_in(cell) {
            Some(data) => Some(data.as_slice()),
            None => None,
        },
        None => None,
    }
}

/// The record of the name in the database of that number, as it is held, and None where no such record is
/// committed.
pub fn record<'a, T: Records>(
    trees: &'a T,
    db: u32,
    name: &SortKey,
) -> Option<(&'a SortKey, &'a Data)>
    ensures name { IfSome result (λ p. p.0.now ≡ name.now) }
    ensures value { option_map (λ p. p.1.now) result ≡ data_at name.now (committed (T.cells trees.now) db) }
{
    match cell_at(trees, db, name) {
        Some((held, cell)) => match committed_in(cell) {
            Some(data) => Some((held, data)),
            None => None,
        },
        None => None,
    }
}

/// The first committed record that is not below the edge, in the database of that number. It takes the time of one
/// search, and of one more for each name on the way that has only a change of an active transaction.
pub fn next<'a, T: Records>(
    trees: &'a T,
    db: u32,
    from: EdgeRef<'_>,
) -> Option<(&'a SortKey, &'a Data)>
    ensures found { option_map (λ p. (p.0.now, p.1.now)) result ≡ first_of (from_edge (edge_of from.entry) (committed (T.cells trees.now) db)) }
    ensures rising { IsRising (committed (T.cells trees.now) db) }
{
    let mut from = from;
    'from: while let Some((name, cell)) = cell_from(trees, db, from) {
        if let Some(data) = committed_in(cell) {
            return Some((name, data));
        }
        from = EdgeRef::Behind(name);
    }
    None
}

/// The last committed record below the edge, in the database of that number. It takes the time of `next`.
pub fn last_below<'a, T: Records>(
    trees: &'a T,
    db: u32,
    upto: EdgeRef<'_>,
) -> Option<(&'a SortKey, &'a Data)>
    ensures { option_map (λ p. (p.0.now, p.1.now)) result ≡ last_of (below_edge (edge_of upto.entry) (committed (T.cells trees.now) db)) }
{
    let mut upto = upto;
    'upto: while let Some((name, cell)) = cell_below(trees, db, upto) {
        if let Some(data) = committed_in(cell) {
            return Some((name, data));
        }
        upto = EdgeRef::At(name);
    }
    None
}
