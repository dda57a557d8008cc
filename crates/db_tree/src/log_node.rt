// Logging a node.
ghost use Rattle.std.specs.Prelude.{◌≡◌, ◌≤◌, ◌<◌, ◌++◌, ◌∷◌, ℕ, [], suc, Option, None, Some, IsSome, IfOk, OnErr, length, List as Items};
ghost use Rattle.je_order.specs.declared.name.Name.{Name};
ghost use Rattle.log_entry.specs.Body.{IsEntry};
ghost use Rattle.record_map.specs.Cells.{value_at, IsRising};
ghost use Rattle.tree_nodes.specs.Levels.{row_of, AreParts};
ghost use Rattle.db_tree.specs.declared.node_at.NodeAt.{NodeAt};
ghost use Rattle.db_tree.specs.Dirty.{AreExact};
ghost use Rattle.db_tree.specs.Images.{Placed};
ghost use Rattle.db_tree.specs.NodeSteps.{AreSameNodes, IsHandedUp, IsLoggedUp, IsNoted, mark_above};
ghost use Rattle.db_tree.specs.Notes.{AreNotesKept};
ghost use Rattle.db_tree.specs.Shapes.{count_in, AreAlike};
ghost use Rattle.db_tree.specs.Waiting.{waiting_of, still_waiting};
ghost use Rattle.tree_nodes.specs.Lows.{lows_of};
ghost use Rattle.db_tree.specs.Content.{NameState, bin_image, kept_by};
ghost use Rattle.tree_nodes.specs.declared.node.Node.{Node as Kept};
ghost use Rattle.db_tree.specs.Trees.{IsTreeOf, IsTree, IsImageOf, IsHandedOn};

use crate::DbTree;
use je_lsn::Lsn;
use log_entry::Entry;
use record_map::SortKey;
use record_tree::TreeErr;
use tree_nodes::{Levels, Node};

// From which LSN on the node above one lacks what an image of that one has, which is logged at `at`.
fn mark_above(node: &Node, at: Lsn) -> Lsn
    ensures { result ≡ mark_above node.now.from at }
{
    match node.from {
        Some(from) => from,
        None => at,
    }
}

// Hands the mark of a node, an image of which is logged at `at`, on to the node above it, where there is one. The image of that one
// names an older image of the node.
fn hand_on(levels: &mut Levels, level: usize, low: &SortKey, node: &Node, at: Lsn)
    requires { level < length levels.old }
    ensures handed { IsHandedOn levels.new level low.now node.now }
    ensures up { IsHandedUp levels.old levels.new level low.now (mark_above node.now.from at) }
    ensures tree { (es : Placed) (base : ℕ) (newest : Name → ℕ) (held : Name → NameState) → IsTreeOf es base newest levels.old held → IsTreeOf es base newest levels.new held }
    ensures row { row_of levels.new level ≡ row_of levels.old level }
    ensures others { (k : ℕ) → (k ≡ suc level → ⊥) → row_of levels.new k ≡ row_of levels.old k }
    ensures height { length levels.new ≡ length levels.old }
    ensures parts { AreParts levels.new }
    ensures alike { AreAlike levels.old levels.new }
    ensures nodes { AreSameNodes levels.old levels.new }
    ensures notes { AreNotesKept levels.old levels.new }
{
    let height = levels.height();
    if level + 1 >= height {
        return;
    }
    levels.mark(level + 1, low, mark_above(node, at));
}

impl DbTree {
    /// The last image of the node of a level with the low is at `at`; its mark goes to the node above it. The same nodes are noted.
    pub fn note_image(&mut self, level: usize, low: &SortKey, at: Lsn)
        ensures cells { self.new.cells ≡ self.old.cells }
        ensures lows { lows_of self.new.levels ≡ lows_of self.old.levels }
        ensures waits { waiting_of self.new.levels ≡ still_waiting (record { level = level; low = low.now } ∷ []) 0 (waiting_of self.old.levels) }
        ensures few { count_in self.new ≤ count_in self.old }
        ensures notes { AreNotesKept self.old.levels self.new.levels }
        ensures up { IsSome (value_at low.now (row_of self.old.levels level)) → IsLoggedUp self.old.levels self.new.levels level low.now at }
        ensures cleared { (n : Kept) → level < length self.old.levels → value_at low.now (row_of self.new.levels level) ≡ Some n → n.from ≡ None }
        ensures noted { IsSome (value_at low.now (row_of self.old.levels level)) → IsNoted self.old.levels self.new.levels level low.now at }
        ensures tree { (es : Placed) (base : ℕ) (newest : Name → ℕ) → ((n : Kept) → value_at low.now (row_of self.old.levels level) ≡ Some n → IsImageOf es self.old.levels (kept_by self.old.cells) level (low.now, n) at) → IsTree es base newest self.old.levels self.old.cells → IsTree es base newest self.new.levels self.new.cells }
        ensures exact { (es : Placed) (due : Items NodeAt) → ((n : Kept) → value_at low.now (row_of self.old.levels level) ≡ Some n → IsImageOf es self.old.levels (kept_by self.old.cells) level (low.now, n) at) → AreExact (record { level = level; low = low.now } ∷ due) self.old.levels self.old.cells → AreExact due self.new.levels self.new.cells }
    {
        let height = self.levels.height();
        let _len = self.cells.len();
        if level >= height {
            return;
        }
        let node = match self.levels.at(level, low) {
            Some(node) => node.copy(),
            None => return,
        };
        hand_on(&mut self.levels, level, low, &node, at);
        self.levels.set(level, low, node.logged(at));
    }
}
