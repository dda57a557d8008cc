// A checkpoint notes nodes.
ghost use Rattle.std.specs.Prelude.{◌≡◌};
ghost use Rattle.tree_nodes.specs.Levels.{AreParts};
ghost use Rattle.tree_nodes.specs.Noted.{AreNoted};

use crate::DbTree;

impl DbTree {
    /// Notes the nodes that are dirty and those above them, and no others. It takes no memory, and goes over all nodes.
    pub fn note_dirty(&mut self)
        ensures noted { AreNoted self.old.levels self.new.levels }
        ensures cells { self.new.cells ≡ self.old.cells }
        ensures parts { AreParts self.new.levels }
    {
        self.levels.note_dirty();
    }
}
