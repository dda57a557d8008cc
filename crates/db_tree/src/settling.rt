// The mark of a BIN goes where the BIN has its last image's content again.
ghost use Rattle.std.specs.Prelude.{◌≡◌, ◌&&◌, ℕ, false, is_some, not};
ghost use Rattle.std.specs.List.{list_all};
ghost use Rattle.je_order.specs.declared.name.Name.{Name};
ghost use Rattle.record_map.specs.Cells.{value_at};
ghost use Rattle.tree_nodes.specs.Levels.{row_of};
ghost use Rattle.db_tree.specs.Dirty.{HasSettled, IsAway, is_as_imaged, is_unlike};
ghost use Rattle.record_map.specs.Cells.{is_as_shown};
ghost use Rattle.db_tree.specs.Images.{Placed};
ghost use Rattle.db_tree.specs.NodeSteps.{AreSameNodes};
ghost use Rattle.db_tree.specs.Shapes.{AreAlike};
ghost use Rattle.db_tree.specs.Trees.{IsTree};

use crate::DbTree;
use je_lsn::Lsn;
use record_map::{Cell, SortKey};
use std::collections::btree_map::Range;
use tree_nodes::Node;

// Whether the last image of these cells' BIN, which is at `last`, says of each of them what is committed.
fn are_as_shown(cells: Range<'_, SortKey, Cell>, last: &Option<Lsn>) -> bool
    ensures { result ≡ list_all (λ e. is_as_shown last.now e.1) cells.entry }
{
    for (_name, cell) in cells {
        if !cell.is_as_shown(last) {
            return false;
        }
    }
    true
}

// Whether a BIN may have its last image's content: it has an image, and does not wait to be logged.
pub(crate) fn may_settle(node: &Node) -> bool
    ensures { result ≡ not node.now.forced && is_some node.now.last }
{
    !node.forced && node.last.is_some()
}

impl DbTree {
    // Whether the BIN with the low has its last image's content, and does not wait to be logged.
    fn is_as_imaged(&self, low: &SortKey, node: &Node) -> bool
        ensures { result ≡ is_as_imaged (row_of self.now.levels 0) self.now.cells (low.now, node.now) }
    {
        let _height = self.levels.height();
        if !may_settle(node) {
            return false;
        }
        let high = self.levels.upper_bound(0, low);
        are_as_shown(self.cells.between(low, high), &node.last)
    }

    // Whether the last image of the name's BIN, which is at `last`, says something else of the name than what is committed.
    fn differs(&self, name: &SortKey, last: &Option<Lsn>) -> bool
        ensures { result ≡ is_unlike last.now (value_at name.now self.now.cells) }
    {
        match self.cells.get(name) {
            Some(cell) => !cell.is_as_shown(last),
            None => false,
        }
    }

    // Takes the mark of the BIN over the name, where it has its last image's content. It goes over the BIN's cells where the name's own
    // is as the image says, and takes no memory.
    fn settle(&mut self, name: &SortKey)
        ensures settled { HasSettled self.old.cells self.old.levels self.new.levels name.now }
        ensures cells { self.new.cells ≡ self.old.cells }
        ensures waits { AreAlike self.old.levels self.new.levels }
        ensures nodes { AreSameNodes self.old.levels self.new.levels }
        ensures tree { (es : Placed) (base : ℕ) (newest : Name → ℕ) → IsTree es base newest self.old.levels self.old.cells → IsTree es base newest self.new.levels self.new.cells }
    {
        let _height = self.levels.height();
        let _len = self.cells.len();
        let (low, node) = self.levels.over(0, name);
        if !may_settle(node) {
            return;
        }
        if self.differs(name, &node.last) {
            return;
        }
        if !self.is_as_imaged(low, node) {
            return;
        }
        self.levels.unmark(0, name);
    }

    // The same. Nothing is to be done where the BIN waits or has no image, or where that image says something else of the name than what is
    // committed.
    pub(crate) fn settle_if(&mut self, name: &SortKey, may: bool, is_shown: bool)
        requires may { may ≡ false → IsAway self.old.cells self.old.levels name.now }
        requires shown { is_shown ≡ false → IsAway self.old.cells self.old.levels name.now }
        ensures settled { HasSettled self.old.cells self.old.levels self.new.levels name.now }
        ensures cells { self.new.cells ≡ self.old.cells }
        ensures waits { AreAlike self.old.levels self.new.levels }
        ensures nodes { AreSameNodes self.old.levels self.new.levels }
        ensures tree { (es : Placed) (base : ℕ) (newest : Name → ℕ) → IsTree es base newest self.old.levels self.old.cells → IsTree es base newest self.new.levels self.new.cells }
    {
        let _height = self.levels.height();
        let _len = self.cells.len();
        if !may {
            return;
        }
        if !is_shown {
            return;
        }
        self.settle(name);
    }
}
