// The nodes of an environment's trees.
ghost use Rattle.std.specs.Prelude.{◌≡◌, ◌≤◌, ◌∷◌, ◌&&◌, [], ℕ, List, Bool, true, false, Ok, IfOk, OnOk, IfErr, IfSome};
ghost use Rattle.log_entry.specs.declared.entry.Entry.{Entry};
ghost use Rattle.log_entry.specs.declared.entry.Entry.TheVariants.{CkptStart};
ghost use Rattle.log_entry.specs.declared.root.Root.{Root};
ghost use Rattle.record_tree.specs.declared.node_place.NodePlace.{NodePlace as Place};
ghost use Rattle.record_tree.specs.declared.tree_err.TreeErr.{TreeErr as Reason};
ghost use Rattle.record_tree.specs.Logged.{IsEndOf, IsFront, IsImage, IsUndone};
ghost use Rattle.record_tree.specs.Nodes.{IsNext, NamesEnd};
ghost use Rattle.record_tree.specs.Occupied.{AreSame};

use crate::{CheckpointEnd, NodePlace, Records, TreeErr};
use je_lsn::Lsn;
use std::alloc::{AllocError, Global};

/// The nodes of an environment's trees, as checkpoints log them. No call changes a record. An implementation names which
/// nodes are dirty, which of them a checkpoint has noted, and which roots its end may name.
pub trait Nodes: Records {
    /// The node at a place is dirty: it has no image, or its last image lacks some of what it has.
    ghost is_dirty: { Self → Place → Bool };

    /// The node at a place is noted: a checkpoint noted it as it began, or it was split off such a node or put above such a root since.
    ghost is_noted: { Self → Place → Bool };

    /// The node at a place is dirty, or above a dirty one.
    ghost is_to_note: { Self → Place → Bool };

    /// How many nodes are noted and dirty.
    ghost left: { Self → ℕ };

    /// Each image lacks only what was logged at an LSN or behind it, and no node waits to be logged.
    ghost is_since: { Self → ℕ → Type 0 };

    /// A node's image lacks what was logged from an LSN on.
    ghost is_mark: { Self → ℕ → Type 0 };

    /// A checkpoint's end may name these roots, with a redo from an LSN on.
    ghost may_end: { Self → ℕ → List Root → Type 0 };

    /// The number of a node that was allocated last.
    ghost last_node: { Self → ℕ };

    /// Entries, with so many Commits behind them, would pass the last file of the log.
    ghost is_full: { Self → List Entry → ℕ → Type 0 };

    /// The next node to be logged: of those that are noted and dirty the one of the lowest level, then of the lowest database, then with the
    /// lowest number.
    fn next_node(&self, alloc: Global) -> Result<Option<NodePlace>, AllocError>
        ensures { IfOk result (IsNext (λ p. is_noted self.now p && is_dirty self.now p)) };

    /// How many nodes are noted and dirty; None where these are 2^64 or more.
    fn count_left(&self) -> Option<u64>
        ensures { IfSome result (λ count. count ≡ left self.now) };

    /// Whether no node waits to be logged, nor has an image that lacks what was logged before an LSN.
    fn is_since(&self, alloc: Global, since: Lsn) -> Result<bool, AllocError>
        ensures { result ≡ Ok true → is_since self.now since };

    /// Logs the beginning of the checkpoint of a number, leaves room for so many Commits, and notes the nodes that are dirty and those above
    /// them, and no others. An error but Fault leaves all as it was.
    fn log_start(&mut self, alloc: Global, number: u64, owed: u32) -> Result<Lsn, TreeErr>
        ensures cells { AreSame (Self.cells self.old) (Self.cells self.new) }
        ensures trees { (d : ℕ) → Self.has_tree self.new d ≡ Self.has_tree self.old d }
        ensures waits { Self.waits self.new ≤ Self.waits self.old }
        ensures noted { OnOk result ((p : Place) → is_noted self.new p ≡ is_to_note self.old p) }
        ensures grew { OnOk result (Self.grew self.old self.new (CkptStart number ∷ [])) }
        ensures left { OnOk result (Self.has_room self.new owed) }
        ensures room { OnOk result (is_full self.old (CkptStart number ∷ []) owed → ⊥) }
        ensures tried { IsEndOf Reason.Fault result ((front : List Entry) × IsFront front (CkptStart number ∷ []) × Self.tried self.old self.new front) }
        ensures full { IsEndOf Reason.Full result (is_full self.old (CkptStart number ∷ []) owed) }
        ensures numbers { IsEndOf Reason.IdsEnded result ⊥ }
        ensures same { IfErr result (λ e. IsUndone e → Self.grew self.old self.new []) };

    /// Logs an image of the node at a place, which is dirty, and leaves room for so many Commits. An error but Fault leaves
    /// all as it was.
    fn log_node(&mut self, alloc: Global, place: &NodePlace, owed: u32) -> Result<(), TreeErr>
        requires { is_dirty self.old place.now ≡ true }
        ensures cells { AreSame (Self.cells self.old) (Self.cells self.new) }
        ensures trees { (d : ℕ) → Self.has_tree self.new d ≡ Self.has_tree self.old d }
        ensures waits { Self.waits self.new ≤ Self.waits self.old }
        ensures clean { OnOk result (is_dirty self.new place.now ≡ false) }
        ensures noted { OnOk result ((p : Place) → is_noted self.new p ≡ is_noted self.old p) }
        ensures grew { OnOk result ((image : Entry) × IsImage image × Self.grew self.old self.new (image ∷ [])) }
        ensures left { OnOk result (Self.has_room self.new owed) }
        ensures tried { IsEndOf Reason.Fault result ((image : Entry) × (front : List Entry) × IsImage image × IsFront front (image ∷ []) × Self.tried self.old self.new front) }
        ensures full { IsEndOf Reason.Full result ((image : Entry) × IsImage image × is_full self.old (image ∷ []) owed) }
        ensures numbers { IsEndOf Reason.IdsEnded result ⊥ }
        ensures same { IfErr result (λ e. IsUndone e → Self.grew self.old self.new []) };

    /// Logs a checkpoint's end, with the roots of all trees, and gives its redo LSN: the least of `bound` and of the LSNs from which on a
    /// node's image lacks something. Room for so many Commits is left. An error but Fault leaves all as it was.
    fn log_end(
        &mut self,
        alloc: Global,
        end: &CheckpointEnd,
        bound: Lsn,
        owed: u32,
    ) -> Result<Lsn, TreeErr>
        requires { (since : ℕ) × is_since self.old since }
        ensures cells { AreSame (Self.cells self.old) (Self.cells self.new) }
        ensures trees { (d : ℕ) → Self.has_tree self.new d ≡ Self.has_tree self.old d }
        ensures waits { Self.waits self.new ≤ Self.waits self.old }
        ensures grew { IfOk result (λ redo. (entry : Entry) × NamesEnd is_since is_mark may_end last_node end.now bound self.old redo entry × Self.grew self.old self.new (entry ∷ [])) }
        ensures left { OnOk result (Self.has_room self.new owed) }
        ensures tried { IsEndOf Reason.Fault result ((entry : Entry) × (front : List Entry) × ((redo : ℕ) × NamesEnd is_since is_mark may_end last_node end.now bound self.old redo entry) × IsFront front (entry ∷ []) × Self.tried self.old self.new front) }
        ensures full { IsEndOf Reason.Full result ((entry : Entry) × ((redo : ℕ) × NamesEnd is_since is_mark may_end last_node end.now bound self.old redo entry) × is_full self.old (entry ∷ []) owed) }
        ensures numbers { IsEndOf Reason.IdsEnded result ⊥ }
        ensures same { IfErr result (λ e. IsUndone e → Self.grew self.old self.new []) };
}
