// What transactions see in a tree.
ghost use Rattle.std.specs.Prelude.{◌≡◌, ◌≤◌, [], length, Option, None, Some, IfSome, option_map};
ghost use Rattle.record_map.specs.Cells.{value_at, IsRising, first_of, last_of, from_edge, below_edge, edge_of};
ghost use Rattle.record_tree.specs.Occupied.{occupied_by, is_occupied};
ghost use Rattle.db_tree.specs.Seen.{occupied};

use crate::DbTree;
use node_core::Version;
use record_map::{Cell, EdgeRef, SortKey};
use std::collections::btree_map::Range;

// Whether the name of the cell is occupied: it has a record or a change.
fn is_occupied(cell: &Cell) -> bool
    ensures { result ≡ is_occupied (occupied_by cell.now) }
{
    match &cell.write {
        Some(_) => true,
        None => match cell.version {
            Version::There(_) => true,
            Version::Deleted | Version::Unset => false,
        },
    }
}

// The first name that is occupied.
fn first_occupied<'a>(cells: Range<'a, SortKey, Cell>) -> Option<(&'a SortKey, &'a Cell)>
    ensures { option_map (λ p. (p.0.now, occupied_by p.1.now)) result ≡ first_of (occupied cells.entry) }
{
    for (name, cell) in cells {
        if is_occupied(cell) {
            return Some((name, cell));
        }
    }
    None
}

// The last name that is occupied, where there are at most so many cells.
fn last_occupied<'a>(
    cells: Range<'a, SortKey, Cell>,
    count: usize,
) -> Option<(&'a SortKey, &'a Cell)>
    requires { length cells ≤ count }
    ensures { option_map (λ p. (p.0.now, occupied_by p.1.now)) result ≡ last_of (occupied cells.entry) }
{
    let mut cells = cells;
    for i in 0..count {
        match cells.next_back() {
            Some((name, cell)) => {
                if is_occupied(cell) {
                    return Some((name, cell));
                }
            }
            None => return None,
        }
    }
    None
}

impl DbTree {
    /// The cell of the name, where it is occupied, with the name as it is held.
    pub fn get(&self, name: &SortKey) -> Option<(&SortKey, &Cell)>
        ensures name { IfSome result (λ p. p.0.now ≡ name.now) }
        ensures found { option_map (λ p. occupied_by p.1.now) result ≡ value_at name.now (occupied self.now.cells) }
        ensures rising { IsRising (occupied self.now.cells) }
    {
        let _len = self.cells.len();
        match self.cells.get_key_value(name) {
            Some((held, cell)) => {
                if is_occupied(cell) {
                    Some((held, cell))
                } else {
                    None
                }
            }
            None => None,
        }
    }

    /// The first occupied name that is not below the edge.
    pub fn next(&self, from: EdgeRef<'_>) -> Option<(&SortKey, &Cell)>
        ensures found { option_map (λ p. (p.0.now, occupied_by p.1.now)) result ≡ first_of (from_edge (edge_of from.entry) (occupied self.now.cells)) }
        ensures rising { IsRising (occupied self.now.cells) }
    {
        match self.cells.iter_from(from) {
            Some(cells) => first_occupied(cells),
            None => None,
        }
    }

    /// The last occupied name below the edge.
    pub fn last_below(&self, upto: EdgeRef<'_>) -> Option<(&SortKey, &Cell)>
        ensures found { option_map (λ p. (p.0.now, occupied_by p.1.now)) result ≡ last_of (below_edge (edge_of upto.entry) (occupied self.now.cells)) }
        ensures rising { IsRising (occupied self.now.cells) }
    {
        let count = self.cells.len();
        match self.cells.iter_below(upto) {
            Some(cells) => last_occupied(cells, count),
            None => None,
        }
    }
}
