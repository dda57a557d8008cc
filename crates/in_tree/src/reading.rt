// What transactions see in trees.
ghost use Rattle.std.specs.Prelude.{◌≡◌, is_some, count_by, IfSome, option_map};
ghost use Rattle.record_map.specs.Cells.{value_at, IsRising, first_of, last_of, from_edge, below_edge, edge_of};
ghost use Rattle.record_tree.specs.Occupied.{occupied_by};
ghost use Rattle.in_tree.specs.Forest.{cells_seen};

use crate::stored;
use db_tree::DbTree;
use record_map::{Cell, EdgeRef, SortKey};
use std::collections::BTreeMap;

// The cell of a name of a database, where it is occupied, with the name as it is held.
pub(crate) fn get<'a>(
    trees: &'a BTreeMap<u32, DbTree>,
    db: u32,
    name: &SortKey,
) -> Option<(&'a SortKey, &'a Cell)>
    ensures name { IfSome result (λ p. p.0.now ≡ name.now) }
    ensures found { option_map (λ p. occupied_by p.1.now) result ≡ value_at name.now (cells_seen trees.entry.now db) }
    ensures rising { IsRising (cells_seen trees.entry.now db) }
{
    match trees.get(&db) {
        Some(tree) => tree.get(name),
        None => None,
    }
}

// The first occupied name of a database that is not below the edge.
pub(crate) fn next<'a>(
    trees: &'a BTreeMap<u32, DbTree>,
    db: u32,
    from: EdgeRef<'_>,
) -> Option<(&'a SortKey, &'a Cell)>
    ensures found { option_map (λ p. (p.0.now, occupied_by p.1.now)) result ≡ first_of (from_edge (edge_of from.entry) (cells_seen trees.entry.now db)) }
    ensures rising { IsRising (cells_seen trees.entry.now db) }
{
    match trees.get(&db) {
        Some(tree) => tree.next(from),
        None => None,
    }
}

// The last occupied name of a database below the edge.
pub(crate) fn last_below<'a>(
    trees: &'a BTreeMap<u32, DbTree>,
    db: u32,
    upto: EdgeRef<'_>,
) -> Option<(&'a SortKey, &'a Cell)>
    ensures found { option_map (λ p. (p.0.now, occupied_by p.1.now)) result ≡ last_of (below_edge (edge_of upto.entry) (cells_seen trees.entry.now db)) }
    ensures rising { IsRising (cells_seen trees.entry.now db) }
{
    match trees.get(&db) {
        Some(tree) => tree.last_below(upto),
        None => None,
    }
}

// How many names of a database have committed data.
pub(crate) fn count_records(trees: &BTreeMap<u32, DbTree>, db: u32) -> usize
    ensures { result ≡ count_by (λ e. is_some e.1.value) (cells_seen trees.now db) }
{
    stored::count(trees, db)
}
