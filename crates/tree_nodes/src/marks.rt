// From which LSN on images of nodes lack something.
ghost use Rattle.std.specs.Prelude.{◌≡◌, ◌≤◌, ◌<◌, ◌⊎◌, ℕ, Some, false, length};
ghost use Rattle.tree_nodes.specs.Marks.{IsMarkOrAt, before_at, is_before, is_marked_before, mark_at};

use crate::Node;
use je_lsn::Lsn;
use record_map::SortKey;

// Whether a mark is before an LSN.
fn is_marked_before(from: &Option<Lsn>, since: Lsn) -> bool
    ensures { result ≡ is_marked_before from.now since }
{
    match from {
        Some(lsn) => *lsn < since,
        None => false,
    }
}

// Whether a node waits to be logged, or its last image lacks what was logged before an LSN.
fn is_before(node: &Node, since: Lsn) -> bool
    ensures { result ≡ is_before since node.now }
{
    node.forced || is_marked_before(&node.from, since)
}

// Whether that is so of the node at a place, if some low has the place.
fn before_at(nodes: &[Node], names: &[Option<SortKey>], place: usize, since: Lsn) -> bool
    requires within { place < length nodes.now }
    requires same { length names.now ≡ length nodes.now }
    ensures { result ≡ before_at since names.now nodes.now place }
{
    let node = &nodes[place];
    match &names[place] {
        Some(_) => is_before(node, since),
        None => false,
    }
}

// Whether that is so of a node at a place that some low has.
pub(crate) fn has_before(nodes: &[Node], names: &[Option<SortKey>], since: Lsn) -> bool
    requires { length names.now ≡ length nodes.now }
    ensures { result ≡ false → (i : ℕ) → before_at since names.now nodes.now i ≡ false }
{
    for place in 0..nodes.len() {
        if before_at(nodes, names, place, since) {
            return true;
        }
    }
    false
}

// The lesser of an LSN and a mark, if there is one.
fn lesser(least: Lsn, from: &Option<Lsn>) -> Lsn
    ensures upto { result ≤ least }
    ensures from { is_marked_before from.now result ≡ false }
    ensures some { (result ≡ least) ⊎ (from.now ≡ Some result) }
{
    match from {
        Some(lsn) if *lsn < least => *lsn,
        _ => least,
    }
}

// The lesser of an LSN and the mark of the node at a place, if it has one and some low has the place.
fn lesser_at(nodes: &[Node], names: &[Option<SortKey>], place: usize, least: Lsn) -> Lsn
    requires within { place < length nodes.now }
    requires same { length names.now ≡ length nodes.now }
    ensures upto { result ≤ least }
    ensures from { is_marked_before (mark_at names.now nodes.now place) result ≡ false }
    ensures some { (result ≡ least) ⊎ (mark_at names.now nodes.now place ≡ Some result) }
{
    let node = &nodes[place];
    match &names[place] {
        Some(_) => lesser(least, &node.from),
        None => least,
    }
}

// The least of an LSN and of the marks of the nodes at places that some low has.
pub(crate) fn least_mark(nodes: &[Node], names: &[Option<SortKey>], bound: Lsn) -> Lsn
    requires { length names.now ≡ length nodes.now }
    ensures upto { result ≤ bound }
    ensures all { (i : ℕ) → is_marked_before (mark_at names.now nodes.now i) result ≡ false }
    ensures some { IsMarkOrAt bound names.now nodes.now result }
{
    let mut least = bound;
    for place in 0..nodes.len() {
        least = lesser_at(nodes, names, place, least);
    }
    least
}
