// The steps of a checkpoint under way.
ghost use Rattle.std.specs.Prelude.{◌≡◌, ◌≤◌, ◌&&◌, ℕ, true, Some, IfErr, IfOk};
ghost use Rattle.record_tree.specs.Occupied.{AreSame};
ghost use Rattle.record_tree.specs.Nodes.{IsNext};
ghost use Rattle.record_tree.specs.declared.node_place.NodePlace.{NodePlace as Place};
ghost use Rattle.record_tree.specs.declared.tree_err.TreeErr.{TreeErr as Reason};
ghost use Rattle.checkpointer.specs.Steps.{Finishes, Flushes};

use crate::numbers::earlier_of;
use crate::{Ended, Finish, UnderWay};
use je_lsn::Lsn;
use record_tree::{CheckpointEnd, NodePlace, Nodes, TreeErr};
use std::alloc::Global;

// Logs the next node.
fn log_next<T: Nodes>(
    trees: &mut T,
    alloc: Global,
    place: NodePlace,
    owed: u32,
) -> Result<Option<u64>, TreeErr>
    requires next { IsNext (λ p. T.is_noted trees.old p && T.is_dirty trees.old p) (Some place) }
    ensures flushes { Flushes T.is_noted T.is_dirty T.left T.is_since T.is_mark T.may_end T.last_node T.grew T.tried T.has_room T.is_full owed trees.old trees.new result }
    ensures cells { AreSame (T.cells trees.old) (T.cells trees.new) }
    ensures trees { (d : ℕ) → T.has_tree trees.new d ≡ T.has_tree trees.old d }
    ensures waits { T.waits trees.new ≤ T.waits trees.old }
{
    match trees.log_node(alloc, &place, owed) {
        Ok(()) => {
            let node = place.node;
            drop(place);
            Ok(Some(node))
        }
        Err(error) => {
            drop(place);
            Err(error)
        }
    }
}

// Logs the next node, if there is one.
pub(crate) fn flush<T: Nodes>(
    trees: &mut T,
    alloc: Global,
    owed: u32,
) -> Result<Option<u64>, TreeErr>
    ensures flushes { Flushes T.is_noted T.is_dirty T.left T.is_since T.is_mark T.may_end T.last_node T.grew T.tried T.has_room T.is_full owed trees.old trees.new result }
    ensures cells { AreSame (T.cells trees.old) (T.cells trees.new) }
    ensures trees { (d : ℕ) → T.has_tree trees.new d ≡ T.has_tree trees.old d }
    ensures waits { T.waits trees.new ≤ T.waits trees.old }
{
    match trees.next_node(alloc) {
        Ok(Some(place)) => log_next(trees, alloc, place, owed),
        Ok(None) => Ok(None),
        Err(_) => Err(TreeErr::Memory),
    }
}

// Whether the end of a checkpoint of which no node is left may be logged, with a redo at `bound` at the latest. It may: a node whose image
// lacks what was logged before this life of the environment was dirty as the checkpoint began, and so is noted.
fn may_end<T: Nodes>(trees: &T, alloc: Global, since: Lsn, bound: Lsn) -> Result<(), TreeErr>
    ensures since { IfOk result (λ u. (since ≤ bound) × T.is_since trees.now since) }
    ensures error { IfErr result (λ e. e ≡ Reason.Memory) }
{
    if bound < since {
        return Err(TreeErr::Memory);
    }
    match trees.is_since(alloc, since) {
        Ok(true) => Ok(()),
        _ => Err(TreeErr::Memory),
    }
}

// Logs the end of a checkpoint of which no node is left.
fn log_end<T: Nodes>(
    trees: &mut T,
    alloc: Global,
    under_way: &UnderWay,
    finish: &Finish,
) -> Result<Ended, TreeErr>
    requires none { T.left trees.old ≡ 0 }
    ensures finishes { Finishes T.is_noted T.is_dirty T.left T.is_since T.is_mark T.may_end T.last_node T.grew T.tried T.has_room T.is_full finish.now under_way.now trees.old trees.new result }
    ensures cells { AreSame (T.cells trees.old) (T.cells trees.new) }
    ensures trees { (d : ℕ) → T.has_tree trees.new d ≡ T.has_tree trees.old d }
    ensures waits { T.waits trees.new ≤ T.waits trees.old }
{
    let end = CheckpointEnd {
        number: under_way.number,
        start: under_way.start,
        last_txn: finish.last_txn,
        last_db: finish.last_db,
    };
    let bound = earlier_of(under_way.start, finish.first);
    match may_end(trees, alloc, finish.since, bound) {
        Ok(()) => {}
        Err(error) => return Err(error),
    }
    match trees.log_end(alloc, &end, bound, finish.owed) {
        Ok(redo) => Ok(Ended::Done(redo)),
        Err(error) => Err(error),
    }
}

// Logs the end of a checkpoint, if no node is left.
pub(crate) fn try_finish<T: Nodes>(
    trees: &mut T,
    alloc: Global,
    under_way: &UnderWay,
    finish: &Finish,
) -> Result<Ended, TreeErr>
    ensures finishes { Finishes T.is_noted T.is_dirty T.left T.is_since T.is_mark T.may_end T.last_node T.grew T.tried T.has_room T.is_full finish.now under_way.now trees.old trees.new result }
    ensures cells { AreSame (T.cells trees.old) (T.cells trees.new) }
    ensures trees { (d : ℕ) → T.has_tree trees.new d ≡ T.has_tree trees.old d }
    ensures waits { T.waits trees.new ≤ T.waits trees.old }
{
    match trees.count_left() {
        Some(0) => log_end(trees, alloc, under_way, finish),
        Some(left) => Ok(Ended::Left(left)),
        None => Err(TreeErr::Memory),
    }
}
