// The records of trees that a transaction sees.
ghost use Rattle.std.specs.Prelude.{◌≡◌, IfSome, option_map};
ghost use Rattle.record_map.specs.Cells.{first_of, last_of, from_edge, below_edge, edge_of};
ghost use Rattle.log_replay.specs.Rows.{data_at};
ghost use Rattle.txn_views.specs.Seen.{seen_rows};

use crate::viewer::Viewer;
use record_map::{Data, EdgeRef, SortKey};
use record_tree::Records;
use txn_core::reading::{cell_at, cell_below, cell_from};

/// The record of the name that is seen in the database of that number, as it is held, if there is one.
pub fn record<'a, T: Records>(
    trees: &'a T,
    viewer: Viewer,
    db: u32,
    name: &SortKey,
) -> Option<(&'a SortKey, &'a Data)>
    ensures name { IfSome result (λ p. p.0.now ≡ name.now) }
    ensures value { option_map (λ p. p.1.now) result ≡ data_at name.now (seen_rows viewer.level viewer.txn (T.cells trees.now db)) }
{
    match cell_at(trees, db, name) {
        Some((held, cell)) => match viewer.data_in(cell) {
            Some(data) => Some((held, data)),
            None => None,
        },
        None => None,
    }
}

/// The first record that is seen and not below the edge. It takes the time of one search, and of one more for each name
/// on the way that is occupied and has no record that is seen.
pub fn next<'a, T: Records>(
    trees: &'a T,
    viewer: Viewer,
    db: u32,
    from: EdgeRef<'_>,
) -> Option<(&'a SortKey, &'a Data)>
    ensures { option_map (λ p. (p.0.now, p.1.now)) result ≡ first_of (from_edge (edge_of from.entry) (seen_rows viewer.level viewer.txn (T.cells trees.now db))) }
{
    let mut from = from;
    'from: while let Some((name, cell)) = cell_from(trees, db, from) {
        if let Some(data) = viewer.data_in(cell) {
            return Some((name, data));
        }
        from = EdgeRef::Behind(name);
    }
    None
}

/// The last record that is seen and below the edge. It takes the time of `next`.
pub fn last_below<'a, T: Records>(
    trees: &'a T,
    viewer: Viewer,
    db: u32,
    upto: EdgeRef<'_>,
) -> Option<(&'a SortKey, &'a Data)>
    ensures { option_map (λ p. (p.0.now, p.1.now)) result ≡ last_of (below_edge (edge_of upto.entry) (seen_rows viewer.level viewer.txn (T.cells trees.now db))) }
{
    let mut upto = upto;
    'upto: while let Some((name, cell)) = cell_below(trees, db, upto) {
        if let Some(data) = viewer.data_in(cell) {
            return Some((name, data));
        }
        upto = EdgeRef::At(name);
    }
    None
}
