// The checkpoints of an environment.
ghost use Rattle.std.specs.Prelude.{◌≡◌, ◌≤◌, ◌∷◌, [], ℕ, List, None, Some, is_some, true, Ok, OnOk, OnErr, IfErr};
ghost use Rattle.log_entry.specs.declared.entry.Entry.{Entry};
ghost use Rattle.log_entry.specs.declared.entry.Entry.TheVariants.{CkptStart};
ghost use Rattle.record_tree.specs.declared.node_place.NodePlace.{NodePlace as Place};
ghost use Rattle.record_tree.specs.declared.tree_err.TreeErr.{TreeErr as Reason};
ghost use Rattle.record_tree.specs.Logged.{IsEndOf, IsFront, IsUndone};
ghost use Rattle.record_tree.specs.Occupied.{AreSame};
ghost use Rattle.checkpointer.specs.Numbers.{number_after};
ghost use Rattle.checkpointer.specs.Steps.{Finishes, Flushes};
ghost use Rattle.checkpointer.specs.declared.under_way.UnderWay.{UnderWay as Begun};

use crate::numbers::number_after;
use crate::stepping::{flush, try_finish};
use crate::{Ended, Finish, UnderWay};
use record_tree::{Nodes, TreeErr};
use std::alloc::Global;

/// The checkpoints of an environment: the number of the last one that ended, and the one under way. It is made as the
/// environment is opened.
#[derive(Drop)]
pub struct Checkpointer {
    /// The number of the last checkpoint that ended; 0 where none has.
    pub last: u64,
    /// The one under way.
    pub under_way: Option<UnderWay>,
}

impl Checkpointer {
    /// No checkpoint is under way; `last` is the number of the last one that ended. It takes no memory.
    pub fn new(last: u64) -> Checkpointer
        ensures last { result.last ≡ last }
        ensures none { result.under_way ≡ None }
    {
        Checkpointer {
            last,
            under_way: None,
        }
    }

    /// Whether a checkpoint is under way.
    pub fn is_under_way(&self) -> bool
        ensures { result ≡ is_some self.now.under_way }
    {
        self.under_way.is_some()
    }

    /// Begins a checkpoint: logs its beginning, with room for so many Commits behind it, and has the trees note the nodes that are
    /// dirty and those above them, and no others. An error but Fault leaves all as it was.
    pub fn begin<T: Nodes>(
        &mut self,
        trees: &mut T,
        alloc: Global,
        owed: u32,
    ) -> Result<(), TreeErr>
        requires none { self.old.under_way ≡ None }
        ensures begun { OnOk result (is_some self.new.under_way ≡ true) }
        ensures last { self.new.last ≡ self.old.last }
        ensures noted { OnOk result ((p : Place) → T.is_noted trees.new p ≡ T.is_to_note trees.old p) }
        ensures cells { AreSame (T.cells trees.old) (T.cells trees.new) }
        ensures trees { (d : ℕ) → T.has_tree trees.new d ≡ T.has_tree trees.old d }
        ensures waits { T.waits trees.new ≤ T.waits trees.old }
        ensures grew { OnOk result (T.grew trees.old trees.new (CkptStart (number_after self.old.last) ∷ [])) }
        ensures left { OnOk result (T.has_room trees.new owed) }
        ensures room { OnOk result (T.is_full trees.old (CkptStart (number_after self.old.last) ∷ []) owed → ⊥) }
        ensures tried { IsEndOf Reason.Fault result ((front : List Entry) × IsFront front (CkptStart (number_after self.old.last) ∷ []) × T.tried trees.old trees.new front) }
        ensures full { IsEndOf Reason.Full result (T.is_full trees.old (CkptStart (number_after self.old.last) ∷ []) owed) }
        ensures numbers { IsEndOf Reason.IdsEnded result ⊥ }
        ensures same { IfErr result (λ e. IsUndone e → T.grew trees.old trees.new []) }
        ensures err { OnErr result (self.new.under_way ≡ None) }
    {
        let number = number_after(self.last);
        match trees.log_start(alloc, number, owed) {
            Ok(start) => {
                self.under_way = Some(UnderWay { number, start });
                Ok(())
            }
            Err(error) => Err(error),
        }
    }

    /// Logs the next node of the checkpoint under way, with room for so many Commits behind it, and gives its number: of the nodes that are
    /// noted and dirty the one of the lowest level, then of the lowest database, then with the lowest number. None where no noted node is
    /// dirty. A node that was logged is noted as before: if it becomes dirty again, it is logged again. An error but Fault leaves the trees as
    /// they were.
    pub fn flush<T: Nodes>(
        &self,
        trees: &mut T,
        alloc: Global,
        owed: u32,
    ) -> Result<Option<u64>, TreeErr>
        requires some { is_some self.now.under_way ≡ true }
        ensures cells { AreSame (T.cells trees.old) (T.cells trees.new) }
        ensures trees { (d : ℕ) → T.has_tree trees.new d ≡ T.has_tree trees.old d }
        ensures waits { T.waits trees.new ≤ T.waits trees.old }
        ensures flushes { Flushes T.is_noted T.is_dirty T.left T.is_since T.is_mark T.may_end T.last_node T.grew T.tried T.has_room T.is_full owed trees.old trees.new result }
    {
        flush(trees, alloc, owed)
    }

    /// Logs the end of the checkpoint, with room for so many Commits behind it, where no noted node is dirty; else it says how many are.
    /// An error but Fault leaves all as it was.
    pub fn finish<T: Nodes>(
        &mut self,
        trees: &mut T,
        alloc: Global,
        finish: &Finish,
    ) -> Result<Ended, TreeErr>
        requires some { is_some self.old.under_way ≡ true }
        ensures ends { (w : Begun) → self.old.under_way ≡ Some w → Finishes T.is_noted T.is_dirty T.left T.is_since T.is_mark T.may_end T.last_node T.grew T.tried T.has_room T.is_full finish.now w trees.old trees.new result }
        ensures done { (redo : ℕ) → result ≡ Ok (Ended.Done redo) → (self.new.under_way ≡ None) × ((w : Begun) → self.old.under_way ≡ Some w → self.new.last ≡ w.number) }
        ensures stays { ((redo : ℕ) → result ≡ Ok (Ended.Done redo) → ⊥) → (self.new.under_way ≡ self.old.under_way) × (self.new.last ≡ self.old.last) }
        ensures cells { AreSame (T.cells trees.old) (T.cells trees.new) }
        ensures trees { (d : ℕ) → T.has_tree trees.new d ≡ T.has_tree trees.old d }
        ensures waits { T.waits trees.new ≤ T.waits trees.old }
    {
        let Some(under_way) = &self.under_way else {
            unreachable!()
        };
        let number = under_way.number;
        let ended = try_finish(trees, alloc, under_way, finish);
        if let Ok(Ended::Done(_)) = ended {
            self.under_way = None;
            self.last = number;
        }
        ended
    }
}
