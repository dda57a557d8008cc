// The entries of checkpoints go into the log.
ghost use Rattle.std.specs.Prelude.{◌≡◌, ◌<◌, ◌≤◌, ◌⊎◌, ◌∷◌, [], ℕ, List, true, false, nat_lt, IfErr, IfOk, OnOk, OnErr};
ghost use Rattle.je_lsn.specs.Naming.{last_file};
ghost use Rattle.log_entry.specs.Body.{IsEntry};
ghost use Rattle.log_entry.specs.Encoding.{size_of};
ghost use Rattle.log_entry.specs.declared.entry.Entry.{Entry as Logged};
ghost use Rattle.log_buffer.specs.Buffer.{end_of, file_max_of, has_failed, IsUnchanged};
ghost use Rattle.log_buffer.specs.Flip.{placed_at, pos_lsn};
ghost use Rattle.record_tree.specs.Logged.{IsEndOf, IsFront, IsImage, IsUndone};
ghost use Rattle.record_tree.specs.declared.node_place.NodePlace.{NodePlace as Place};
ghost use Rattle.record_tree.specs.declared.tree_err.TreeErr.{TreeErr as Reason};
ghost use Rattle.db_tree.specs.NodeImages.{IsLoggable};
ghost use Rattle.dirty_nodes.specs.Forest.{is_dirty_in, is_noted_in};
ghost use Rattle.in_tree.specs.Forest.{cells_seen, HasSameCells, HasSameTrees};
ghost use Rattle.in_tree.specs.Checkpoints.{HasGot, IsAloneIn, IsCheckpointEntry, IsFullFor};
ghost use Rattle.in_tree.specs.Limits.{GrewFitting, HasRoomFor, TriedFitting, commit_sizes, end_behind};
ghost use Rattle.in_tree.specs.Logging.{LogsImage, LogsRoom, TriesImage};
ghost use Rattle.in_tree.specs.Observed.{GrewTrees};
ghost use Rattle.in_tree.specs.Waits.{waits_in};

use crate::LogTrees;
use crate::writing::{commit_size, log_image};
use db_tree::{DbTree, NodeAt, NodeImage};
use je_disk::Disk;
use je_lsn::Lsn;
use je_order::TxnId;
use log_buffer::LogBuffer;
use log_entry::{Entry, EntryRef, ref_size};
use record_tree::{NodePlace, TreeErr};
use std::alloc::{AllocError, Global};
use std::collections::BTreeMap;

// The size of an entry, and those of the Commits that are owed behind it.
fn owed_sizes(alloc: Global, size: u32, owed: u32) -> Result<Vec<u32>, AllocError>
    ensures { IfOk result (λ sizes. sizes.items ≡ size ∷ commit_sizes owed) }
{
    let mut sizes = Vec::new(alloc);
    sizes.push(size)?;
    let commit = commit_size(TxnId(0));
    for i in 0..owed {
        sizes.push(commit)?;
    }
    Ok(sizes)
}

// An image of the node at a place.
pub(crate) fn image_at(
    trees: &BTreeMap<u32, DbTree>,
    alloc: Global,
    place: &NodePlace,
) -> Result<NodeImage, AllocError>
    requires { is_dirty_in trees.now place.now ≡ true }
    ensures image { IfOk result (IsAloneIn trees.now place.now) }
{
    let at = NodeAt {
        level: place.level,
        low: place.low.copy(alloc)?,
    };
    match trees.get(&place.db) {
        Some(tree) => tree.image_alone(alloc, place.db, at),
        None => {
            drop(at);
            Err(AllocError)
        }
    }
}

// Logs an entry of a checkpoint that is no image, for which there is room.
fn append_plain<D: Disk>(log: &mut LogBuffer<D>, entry: &Entry) -> Result<Lsn, TreeErr>
    requires entry { IsEntry entry.now }
    requires plain { IsCheckpointEntry entry.now }
    requires room { (sizes : List ℕ) × HasRoomFor log.old (size_of entry.now ∷ sizes) }
    ensures at { IfOk result (λ at. at ≡ pos_lsn (placed_at (file_max_of log.old) (end_of log.old) (size_of entry.now))) }
    ensures grew { OnOk result (GrewFitting D.meaning log.old log.new (entry.now ∷ [])) }
    ensures left { (sizes : List ℕ) → HasRoomFor log.old (size_of entry.now ∷ sizes) → OnOk result (HasRoomFor log.new sizes) }
    ensures tried { OnErr result (TriedFitting D.meaning log.old log.new (entry.now ∷ [])) }
    ensures by_fault { IfErr result (λ e. e ≡ Reason.Fault) }
{
    match log.append_reserved(&EntryRef::Whole(entry)) {
        Ok(at) => Ok(at),
        Err(_) => Err(TreeErr::Fault),
    }
}

// Logs an image of a node of a database's tree by itself, for which there is room.
pub(crate) fn log_alone<D: Disk>(
    log: &mut LogBuffer<D>,
    trees: &mut BTreeMap<u32, DbTree>,
    db: u32,
    place: &NodePlace,
    image: NodeImage,
) -> Result<(), TreeErr>
    requires own { place.now.db ≡ db }
    requires alone { IsAloneIn trees.old place.now image }
    requires room { (sizes : List ℕ) × HasRoomFor log.old (size_of image.entry ∷ sizes) }
    ensures grew { OnOk result (LogsRoom D.meaning db (image ∷ []) log.old log.new trees.old trees.new) }
    ensures left { (sizes : List ℕ) → HasRoomFor log.old (size_of image.entry ∷ sizes) → OnOk result (HasRoomFor log.new sizes) }
    ensures tried { OnErr result (TriesImage D.meaning log.old log.new) }
    ensures by_fault { IfErr result (λ e. e ≡ Reason.Fault) }
    ensures cells { HasSameCells trees.old trees.new }
    ensures trees { HasSameTrees trees.old trees.new }
    ensures waits { waits_in trees.new ≤ waits_in trees.old }
    ensures clean { OnOk result (is_dirty_in trees.new place.now ≡ false) }
    ensures noted { (p : Place) → is_noted_in trees.new p ≡ is_noted_in trees.old p }
{
    match trees.get_mut(&db) {
        Some(tree) => log_image(log, tree, image),
        None => unreachable!(),
    }
}

impl<D: Disk> LogTrees<D> {
    // Takes room in the log for an entry of a size and the Commits that are owed behind it.
    pub(crate) fn take_place(&mut self, alloc: Global, size: u32, owed: u32) -> Result<(), TreeErr>
        requires works { has_failed self.old.log ≡ false }
        ensures room { OnOk result (HasRoomFor self.new.log (size ∷ commit_sizes owed)) }
        ensures files { OnOk result (last_file < end_behind self.old.log (size ∷ commit_sizes owed) → ⊥) }
        ensures full { IsEndOf Reason.Full result (last_file < end_behind self.old.log (size ∷ commit_sizes owed)) }
        ensures errors { IfErr result (λ e. (e ≡ Reason.Full) ⊎ (e ≡ Reason.Memory)) }
        ensures log { IsUnchanged self.old.log self.new.log }
        ensures trees { self.new.trees ≡ self.old.trees }
    {
        let Ok(sizes) = owed_sizes(alloc, size, owed) else {
            return Err(TreeErr::Memory);
        };
        if self.passes(sizes.as_slice()) {
            drop(sizes);
            return Err(TreeErr::Full);
        }
        match self.log.reserve(sizes.as_slice()) {
            Ok(()) => {
                drop(sizes);
                Ok(())
            }
            Err(_) => {
                drop(sizes);
                Err(TreeErr::Memory)
            }
        }
    }

    // Logs an entry of a checkpoint that is no image, with room for the Commits that are owed behind it.
    pub(crate) fn log_plain(
        &mut self,
        alloc: Global,
        entry: &Entry,
        owed: u32,
    ) -> Result<Lsn, TreeErr>
        requires entry { IsEntry entry.now }
        requires plain { IsCheckpointEntry entry.now }
        ensures trees { self.new.trees ≡ self.old.trees }
        ensures got { IfOk result (HasGot D.meaning self.old.log self.new.log entry.now) }
        ensures left { OnOk result (HasRoomFor self.new.log (commit_sizes owed)) }
        ensures room { OnOk result (IsFullFor self.old.log (entry.now ∷ []) owed → ⊥) }
        ensures tried { IsEndOf Reason.Fault result ((front : List Logged) × IsFront front (entry.now ∷ []) × TriedFitting D.meaning self.old.log self.new.log front) }
        ensures full { IsEndOf Reason.Full result (IsFullFor self.old.log (entry.now ∷ []) owed) }
        ensures numbers { IsEndOf Reason.IdsEnded result ⊥ }
        ensures same { IfErr result (λ e. IsUndone e → GrewTrees D.meaning self.old self.new []) }
    {
        if self.log.has_failed() {
            return Err(TreeErr::Fault);
        }
        match self.take_place(alloc, ref_size(&EntryRef::Whole(entry)), owed) {
            Ok(()) => {}
            Err(error) => return Err(error),
        }
        match append_plain(&mut self.log, entry) {
            Ok(at) => Ok(at),
            Err(error) => Err(error),
        }
    }
}
