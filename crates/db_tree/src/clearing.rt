// Nodes that are logged wait no more.
ghost use Rattle.std.specs.Prelude.{◌≡◌, ℕ, [], ◌∷◌, map, filter, true, false, List as Rows};
ghost use Rattle.std.specs.List.{AllByRecursion};
ghost use Rattle.je_order.specs.declared.name.Name.{Name};
ghost use Rattle.tree_nodes.specs.Nodes.{NodeRow};
ghost use Rattle.db_tree.specs.Images.{Placed};
ghost use Rattle.db_tree.specs.NodeImages.{node_of};
ghost use Rattle.db_tree.specs.Shapes.{AreForced, with_forced};
ghost use Rattle.db_tree.specs.Trees.{IsTree};
ghost use Rattle.db_tree.specs.Waiting.{waits_at};

use crate::{DbTree, NodeImage};
use record_map::SortKey;
use tree_nodes::Node;

// The node, where it waits to be logged, or does not.
fn with_forced(node: &Node, forced: bool) -> Node
    ensures { result ≡ with_forced forced node.now }
{
    let mut copy = node.copy();
    copy.forced = forced;
    copy
}

impl DbTree {
    // Lets the node of a level with the low wait to be logged, or not, where there is one.
    fn set_forced(&mut self, level: usize, low: &SortKey, forced: bool)
        ensures forced { AreForced forced (record { level = level; low = low.now } ∷ []) self.old.levels self.new.levels }
        ensures cells { self.new.cells ≡ self.old.cells }
        ensures tree { (es : Placed) (base : ℕ) (newest : Name → ℕ) → IsTree es base newest self.old.levels self.old.cells → IsTree es base newest self.new.levels self.new.cells }
    {
        let height = self.levels.height();
        if level >= height {
            return;
        }
        let node = match self.levels.at(level, low) {
            Some(node) => node.copy(),
            None => return,
        };
        self.levels.set(level, low, with_forced(&node, forced));
    }

    // The node of an image waits no more.
    fn clear_one(&mut self, image: &NodeImage)
        ensures forced { AreForced false (node_of image.now ∷ []) self.old.levels self.new.levels }
        ensures cells { self.new.cells ≡ self.old.cells }
        ensures tree { (es : Placed) (base : ℕ) (newest : Name → ℕ) → IsTree es base newest self.old.levels self.old.cells → IsTree es base newest self.new.levels self.new.cells }
    {
        self.set_forced(image.level, &image.low, false);
    }

    // The nodes of images wait no more.
    pub(crate) fn clear_all(&mut self, images: &[NodeImage])
        ensures forced { AreForced false (map node_of images.now) self.old.levels self.new.levels }
        ensures cells { self.new.cells ≡ self.old.cells }
        ensures tree { (es : Placed) (base : ℕ) (newest : Name → ℕ) → IsTree es base newest self.old.levels self.old.cells → IsTree es base newest self.new.levels self.new.cells }
    {
        let _height = self.levels.height();
        for i in 0..images.len() {
            self.clear_one(&images[i]);
        }
    }

    // The node of an image waits again if it waited before.
    fn restore_one(&mut self, image: &NodeImage)
        ensures forced { AreForced true (map node_of (filter (λ i. i.waited) (image.now ∷ []))) self.old.levels self.new.levels }
        ensures cells { self.new.cells ≡ self.old.cells }
    {
        let _height = self.levels.height();
        if image.waited {
            self.set_forced(image.level, &image.low, true);
        }
    }

    // The nodes of images wait again that waited before.
    pub(crate) fn restore_all(&mut self, images: &[NodeImage])
        ensures back { (before : Rows NodeRow) → AreForced false (map node_of images.now) before self.old.levels → AllByRecursion (λ image. image.waited ≡ waits_at before image.level image.low) images.now → self.new.levels ≡ before }
        ensures cells { self.new.cells ≡ self.old.cells }
    {
        let _height = self.levels.height();
        for i in 0..images.len() {
            self.restore_one(&images[i]);
        }
    }
}
