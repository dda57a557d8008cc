// The trees of an environment over its log.
ghost use Rattle.std.specs.Prelude.{◌≡◌, ◌≤◌, ℕ, true, false, map};
ghost use Rattle.record_tree.specs.declared.tree_err.TreeErr.{TreeErr as Reason};
ghost use Rattle.in_tree.specs.Forest.{AreOrdered, ordered_once};
ghost use Rattle.in_tree.specs.Stored.{committed_cell};
ghost use Rattle.in_tree.specs.Whole.{seen_in, has_tree_in, stored_within, waits_within};

use crate::preparing::writes_for;
use crate::writing::{abort_each, commit_each, log_commit, write_each};
use crate::{LoadedTrees, Trees, forest, reading};
use je_disk::Disk;
use je_lsn::Lsn;
use je_order::TxnId;
use log_buffer::LogBuffer;
use record_map::{Cell, EdgeRef, SortKey};
use record_tree::{Lacks, Records, TreeChange, TreeErr, TreeName};
use std::alloc::Global;

/// The trees of an environment, and the log that gets their entries.
pub struct LogTrees<D> {
    /// The log.
    pub log: LogBuffer<D>,
    /// The trees.
    pub(crate) trees: Trees,
    ghost ordered: { AreOrdered trees.forest } by { ordered_once trees.forest },
}

impl<D: Disk> LogTrees<D> {
    /// The trees that were made of a log, over that log. Each record is committed, and no transaction has changed
    /// anything.
    pub fn new(log: LogBuffer<D>, loaded: LoadedTrees) -> LogTrees<D>
        ensures log { result.log ≡ log }
        ensures cells { (d : ℕ) → seen_in result.trees d ≡ map committed_cell (stored_within loaded d) }
        ensures trees { (d : ℕ) → has_tree_in result.trees d ≡ has_tree_in loaded d }
        ensures waits { waits_within result.trees ≡ waits_within loaded }
        ensures forest { result.trees ≡ loaded }
    {
        LogTrees {
            log,
            trees: loaded.into_trees(),
        }
    }

    /// The log, and the trees.
    pub fn into_parts(self) -> (LogBuffer<D>, Trees)
        ensures log { result.0 ≡ self.log }
        ensures trees { result.1 ≡ self.trees }
    {
        let LogTrees { log, trees } = self;
        (log, trees)
    }
}

impl<D: Disk> Records for LogTrees<D> {
    ghost use Rattle.in_tree.specs.Observed.{GrewTrees, grew_none as none_grew, grew_then as grew_on, tried_then as tried_on};
    ghost use Rattle.std.specs.Ordering.{nat_cmp};
    ghost use Rattle.std.specs.BTreeMap.{get};
    ghost use Rattle.in_tree.specs.Forest.{cells_seen, is_there, none_seen};
    ghost use Rattle.in_tree.specs.Limits.{limit_of, commit_sizes, HasRoomFor, TriedFitting};
    ghost use Rattle.in_tree.specs.Shapes.{shapes_of};
    ghost use Rattle.in_tree.specs.Waits.{waits_in};
    ghost use Rattle.in_tree.specs.Logging.{first_in};

    ghost cells = { λ x. cells_seen x.trees.forest };

    ghost has_tree = { λ x d. is_there x.trees.forest d };

    ghost grew = { λ old new entries. GrewTrees D.meaning old new entries };

    ghost tried = { λ old new entries. TriedFitting D.meaning old.log new.log entries };

    ghost limit = { λ x changes owed. limit_of x.log x.trees.fanout x.trees.last_node (shapes_of x.trees.forest) changes owed };

    ghost has_room = { λ x owed. HasRoomFor x.log (commit_sizes owed) };

    ghost waits = { λ x. waits_in x.trees.forest };

    ghost first_of = { λ x entries. first_in x.log entries };

    ghost no_cells = { λ x d none. none_seen (get nat_cmp x.trees.forest d) none };

    ghost grew_none = { λ x. none_grew D.meaning x };

    ghost grew_then = { λ x y z a b first rest. grew_on D.meaning x y z a b first rest };

    ghost tried_then = { λ x y z a b first rest. tried_on D.meaning x y z a b first rest };

    fn get(&self, db: u32, name: &SortKey) -> Result<Option<(&SortKey, &Cell)>, Lacks> {
        Ok(reading::get(&self.trees.forest, db, name))
    }

    fn next(&self, db: u32, from: EdgeRef<'_>) -> Result<Option<(&SortKey, &Cell)>, Lacks> {
        Ok(reading::next(&self.trees.forest, db, from))
    }

    fn last_below(&self, db: u32, upto: EdgeRef<'_>) -> Result<Option<(&SortKey, &Cell)>, Lacks> {
        Ok(reading::last_below(&self.trees.forest, db, upto))
    }

    fn count_records(&self, db: u32) -> usize {
        reading::count_records(&self.trees.forest, db)
    }

    fn write_all(
        &mut self,
        alloc: Global,
        txn: TxnId,
        changes: &[TreeChange],
        owed: u32,
    ) -> Result<Option<Lsn>, TreeErr> {
        if self.log.has_failed() {
            return Err(TreeErr::Fault);
        }
        let Ok(writes) = writes_for(alloc, txn, changes) else {
            return Err(TreeErr::Memory);
        };
        match self.prepare(alloc, txn, changes, owed) {
            Ok(rooms) => {
                let forest = &mut self.trees.forest;
                write_each(&mut self.log, forest, txn, changes, rooms, writes)
            }
            Err(error) => {
                drop(writes);
                Err(error)
            }
        }
    }

    fn commit(&mut self, txn: TxnId, names: &[TreeName]) -> Result<(), TreeErr> {
        let at = log_commit(&mut self.log, txn)?;
        commit_each(&mut self.trees.forest, names, at);
        Ok(())
    }

    fn abort(&mut self, names: &[TreeName]) {
        abort_each(&mut self.trees.forest, names);
    }

    fn drop_db(&mut self, db: u32) {
        forest::drop_db(&mut self.trees.forest, db);
    }
}
