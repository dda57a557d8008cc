// The nodes of the trees of an environment over its log.
ghost use Rattle.std.specs.Prelude.{◌≡◌, ◌<◌, ◌∷◌, [], ℕ, List, true, None, IfOk, IfSome};
ghost use Rattle.std.specs.List.{AllByRecursion};
ghost use Rattle.log_entry.specs.Body.{IsEntry};
ghost use Rattle.log_entry.specs.Items.{AreRising, IsRoot, root_before};
ghost use Rattle.log_entry.specs.declared.entry.Entry.TheVariants.{CkptEnd};
ghost use Rattle.record_tree.specs.declared.checkpoint_end.CheckpointEnd.{CheckpointEnd as End};
ghost use Rattle.record_tree.specs.Nodes.{ends_at};
ghost use Rattle.dirty_nodes.specs.Forest.{AreNotedTrees, HasAllNumbers};
ghost use Rattle.in_tree.specs.Checkpoints.{IsEndEntry};

use crate::LogTrees;
use crate::logging_checkpoints::{image_at, log_alone};
use dirty_nodes::{count_in, databases_in, is_since_in, least_mark_in, next_in, note_in, roots_in};
use je_disk::Disk;
use je_lsn::Lsn;
use je_order::{List, TxnId};
use log_entry::{Entry, EntryRef, Root, ref_size};
use record_tree::{CheckpointEnd, NodePlace, Nodes, TreeErr};
use std::alloc::{AllocError, Global};

// The most roots that a checkpoint's end names.
const MOST_ROOTS: usize = 65535;

// A root's numbers are within their widths.
fn see_root(root: &Root)
    ensures { IsRoot root.now }
{
    let _db = root.db;
    let _image = root.image.as_u64();
}

// The numbers of each root are within their widths.
fn see_roots(roots: &[Root])
    ensures { AllByRecursion IsRoot roots.now }
{
    for root in roots {
        see_root(root);
    }
}

// The entry of a checkpoint's end.
fn entry_of(
    number: u64,
    start: Lsn,
    redo: Lsn,
    last_txn: u64,
    last_node: u64,
    last_db: u32,
    roots: Vec<Root>,
) -> Entry
    requires { AreRising IsRoot root_before 65535 roots.items }
    ensures entry { result ≡ CkptEnd number start redo (record { 0 = last_txn }) last_node last_db None roots.items }
    ensures is_entry { IsEntry result }
{
    let _start = start.as_u64();
    let _redo = redo.as_u64();
    Entry::CkptEnd {
        number,
        start,
        redo,
        last_txn: TxnId(last_txn),
        last_node,
        last_db,
        summary: None,
        roots: List::from_vec(roots),
    }
}

impl<D: Disk> LogTrees<D> {
    // The end of a checkpoint, with a redo LSN at or below `bound`.
    fn end_entry(
        &self,
        alloc: Global,
        end: &CheckpointEnd,
        bound: Lsn,
    ) -> Result<(Lsn, Entry), AllocError>
        ensures { IfOk result (λ made. IsEndEntry self.now.log self.now.trees end.now bound made.0 made.1) }
    {
        if bound >= self.log.end() {
            return Err(AllocError);
        }
        let redo = least_mark_in(&self.trees.forest, bound);
        let roots = roots_in(&self.trees.forest, alloc)?;
        if roots.len() > MOST_ROOTS {
            drop(roots);
            return Err(AllocError);
        }
        see_roots(roots.as_slice());
        let last_node = self.trees.last_node;
        let entry = entry_of(
            end.number,
            end.start,
            redo,
            end.last_txn,
            last_node,
            end.last_db,
            roots,
        );
        Ok((redo, entry))
    }
}

impl<D: Disk> LogTrees<D> {
    // Notes the nodes that are dirty and those above them, and no others, in the trees of all databases.
    fn note_all(&mut self, dbs: &[u32])
        requires { HasAllNumbers self.old.trees.forest dbs.now }
        ensures noted { AreNotedTrees self.old.trees.forest self.new.trees.forest }
        ensures last_node { self.new.trees.last_node ≡ self.old.trees.last_node }
        ensures log { self.new.log ≡ self.old.log }
    {
        note_in(&mut self.trees.forest, dbs);
    }
}

impl<D: Disk> Nodes for LogTrees<D> {
    ghost use Rattle.dirty_nodes.specs.Forest.{IsMarkIn, IsSince, is_dirty_in, is_noted_in, is_to_note_in, left_in};
    ghost use Rattle.in_tree.specs.Checkpoints.{IsFullFor, MayEndTrees};
    ghost use Rattle.in_tree.specs.Growing.{trees_at};

    ghost is_dirty = { λ x p. is_dirty_in x.trees.forest p };

    ghost is_noted = { λ x p. is_noted_in x.trees.forest p };

    ghost is_to_note = { λ x p. is_to_note_in x.trees.forest p };

    ghost left = { λ x. left_in x.trees.forest };

    ghost is_since = { λ x since. IsSince x.trees.forest since };

    ghost is_mark = { λ x lsn. IsMarkIn x.trees.forest lsn };

    ghost may_end = { λ x redo roots. MayEndTrees x.log (trees_at x.trees.forest) redo roots };

    ghost last_node = { λ x. x.trees.last_node };

    ghost is_full = { λ x entries owed. IsFullFor x.log entries owed };

    fn next_node(&self, alloc: Global) -> Result<Option<NodePlace>, AllocError> {
        next_in(&self.trees.forest, alloc)
    }

    fn count_left(&self) -> Option<u64> {
        count_in(&self.trees.forest)
    }

    fn is_since(&self, _alloc: Global, since: Lsn) -> Result<bool, AllocError> {
        Ok(is_since_in(&self.trees.forest, since))
    }

    fn log_start(&mut self, alloc: Global, number: u64, owed: u32) -> Result<Lsn, TreeErr> {
        let Ok(dbs) = databases_in(&self.trees.forest, alloc) else {
            return Err(TreeErr::Memory);
        };
        let entry = Entry::CkptStart { number };
        match self.log_plain(alloc, &entry, owed) {
            Ok(at) => {
                self.note_all(dbs.as_slice());
                drop(dbs);
                Ok(at)
            }
            Err(error) => {
                drop(dbs);
                Err(error)
            }
        }
    }

    fn log_node(&mut self, alloc: Global, place: &NodePlace, owed: u32) -> Result<(), TreeErr> {
        if self.log.has_failed() {
            return Err(TreeErr::Fault);
        }
        let Ok(image) = image_at(&self.trees.forest, alloc, place) else {
            return Err(TreeErr::Memory);
        };
        match self.take_place(alloc, ref_size(&EntryRef::Whole(&image.entry)), owed) {
            Ok(()) => {
                let db = place.db;
                log_alone(&mut self.log, &mut self.trees.forest, db, place, image)
            }
            Err(error) => {
                drop(image);
                Err(error)
            }
        }
    }

    fn log_end(
        &mut self,
        alloc: Global,
        end: &CheckpointEnd,
        bound: Lsn,
        owed: u32,
    ) -> Result<Lsn, TreeErr> {
        let Ok(made) = self.end_entry(alloc, end, bound) else {
            return Err(TreeErr::Memory);
        };
        let (redo, entry) = made;
        match self.log_plain(alloc, &entry, owed) {
            Ok(_) => {
                drop(entry);
                Ok(redo)
            }
            Err(error) => {
                drop(entry);
                Err(error)
            }
        }
    }
}
