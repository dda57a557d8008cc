// Changes go into the log, and then into their cells.
ghost use Rattle.std.specs.Prelude.{◌≡◌, ◌≤◌, ◌+◌, ◌++◌, ◌∷◌, ℕ, List, [], true, length, map, Some, IsSome, IfErr, IfOk, OnOk, OnErr};
ghost use Rattle.std.specs.List.{AllByRecursion};
ghost use Rattle.std.specs.Option.{option_or};
ghost use Rattle.log_entry.specs.Body.{IsEntry};
ghost use Rattle.log_entry.specs.Encoding.{size_of};
ghost use Rattle.log_entry.specs.Parts.{entry_by};
ghost use Rattle.log_entry.specs.declared.entry.Entry.{Entry};
ghost use Rattle.log_entry.specs.declared.entry.Entry.TheVariants.{Commit as Committed};
ghost use Rattle.record_map.specs.Cells.{IsRising, value_at};
ghost use Rattle.tree_nodes.specs.Levels.{row_of};
ghost use Rattle.record_tree.specs.Logged.{entry_for, LogsChanges, IsFront};
ghost use Rattle.record_tree.specs.Occupied.{AreWritten, HasChangedAll, after_commit, after_abort};
ghost use Rattle.record_tree.specs.declared.tree_err.TreeErr.{TreeErr as Reason};
ghost use Rattle.db_tree.specs.Notes.{AreNotesKept};
ghost use Rattle.db_tree.specs.Seen.{with_change};
ghost use Rattle.db_tree.specs.Shapes.{shape_in};
ghost use Rattle.db_tree.specs.NodeImages.{IsLoggable};
ghost use Rattle.db_tree.specs.Splits.{count_waiting};
ghost use Rattle.in_tree.specs.Forest.{cells_seen, is_there, HasSameCells, HasSameOthers, HasSameTrees, KeepsCells, HasOne, HasChange, MakesSteps, CommitsName, GivesUpName, write_for};
ghost use Rattle.in_tree.specs.Limits.{change_size, commit_size, commit_sizes, HasRoomFor, GrewFitting, TriedFitting};
ghost use Rattle.log_buffer.specs.Buffer.{end_of, file_max_of};
ghost use Rattle.log_buffer.specs.Flip.{placed_at, pos_lsn};
ghost use Rattle.db_tree.specs.declared.node_image.NodeImage.{NodeImage as Due};
ghost use Rattle.in_tree.specs.Growing.{GrewForest, none_due};
ghost use Rattle.in_tree.specs.Logging.{LogsImage, TriesImage, LogsImages, TriesImages, LogsRoom, LogsChangeAt, TriesChange, first_in};
ghost use Rattle.in_tree.specs.Checkpoints.{IsClean};
ghost use Rattle.in_tree.specs.Placing.{room_sizes, placed_sizes, count_images, AreLoggable, due_of};
ghost use Rattle.in_tree.specs.Waits.{waits_in};

use crate::forest;
use db_tree::{DbTree, NodeImage, SlotRoom};
use je_disk::Disk;
use je_lsn::Lsn;
use je_order::TxnId;
use log_buffer::LogBuffer;
use log_entry::{Entry, EntryRef, ref_size};
use record_map::Write;
use record_tree::{TreeChange, TreeErr, TreeName};
use std::alloc::{AllocError, Global};
use std::collections::BTreeMap;

// The entry of a change, by its parts.
fn entry_of<'a>(txn: TxnId, change: &'a TreeChange) -> EntryRef<'a>
    ensures { entry_by result ≡ entry_for txn change.entry.now.db change.entry.now.name change.entry.now.value }
{
    match &change.value {
        Some(value) => EntryRef::Put {
            txn,
            db: change.db,
            key: change.name.key(),
            dup: change.name.dup(),
            value: value.as_slice(),
        },
        None => EntryRef::Delete {
            txn,
            db: change.db,
            key: change.name.key(),
            dup: change.name.dup(),
        },
    }
}

// The size of a change's entry.
pub(crate) fn change_size(txn: TxnId, change: &TreeChange) -> u32
    requires { IsEntry (entry_for txn change.now.db change.now.name change.now.value) }
    ensures { result ≡ change_size change.now }
{
    ref_size(&entry_of(txn, change))
}

// The size of a Commit.
pub(crate) fn commit_size(txn: TxnId) -> u32
    ensures { result ≡ commit_size }
{
    let commit = Entry::Commit { txn };
    ref_size(&EntryRef::Whole(&commit))
}

// Puts the sizes of images behind others.
pub(crate) fn push_sizes(sizes: &mut Vec<u32>, images: &[NodeImage]) -> Result<(), AllocError>
    requires { AllByRecursion (λ i. IsLoggable i.entry) images.now }
    ensures { OnOk result (sizes.new.items ≡ sizes.old.items ++ map (λ i. size_of i.entry) images.now) }
{
    for image in images {
        sizes.push(ref_size(&EntryRef::Whole(&image.entry)))?;
    }
    Ok(())
}

// The sizes of the changes' entries, each behind those of its images.
fn change_sizes(
    alloc: Global,
    txn: TxnId,
    changes: &[TreeChange],
    rooms: &[SlotRoom],
) -> Result<Vec<u32>, AllocError>
    requires entries { AllByRecursion (λ c. IsEntry (entry_for txn c.db c.name c.value)) changes.now }
    requires loggable { AreLoggable rooms.now }
    requires paired { length rooms.now ≡ length changes.now }
    ensures { IfOk result (λ sizes. sizes.items ≡ placed_sizes changes.now rooms.now) }
{
    let mut sizes = Vec::new(alloc);
    for i in 0..changes.len() {
        push_sizes(&mut sizes, rooms[i].images.as_slice())?;
        sizes.push(change_size(txn, &changes[i]))?;
    }
    Ok(sizes)
}

// Puts the sizes of so many Commits behind others.
pub(crate) fn push_commits(sizes: &mut Vec<u32>, txn: TxnId, owed: u32) -> Result<(), AllocError>
    ensures { OnOk result (sizes.new.items ≡ sizes.old.items ++ commit_sizes owed) }
{
    let commit = commit_size(txn);
    for i in 0..owed {
        sizes.push(commit)?;
    }
    Ok(())
}

// The sizes of the changes' entries with their images, and of the Commits that are owed behind them.
pub(crate) fn sizes_for(
    alloc: Global,
    txn: TxnId,
    changes: &[TreeChange],
    rooms: &[SlotRoom],
    owed: u32,
) -> Result<Vec<u32>, AllocError>
    requires entries { AllByRecursion (λ c. IsEntry (entry_for txn c.db c.name c.value)) changes.now }
    requires loggable { AreLoggable rooms.now }
    requires paired { length rooms.now ≡ length changes.now }
    ensures { IfOk result (λ sizes. sizes.items ≡ placed_sizes changes.now rooms.now ++ commit_sizes owed) }
{
    let mut sizes = change_sizes(alloc, txn, changes, rooms)?;
    push_commits(&mut sizes, txn, owed)?;
    Ok(sizes)
}

// Logs an image, for which there is room.
pub(crate) fn append_image<D: Disk>(log: &mut LogBuffer<D>, entry: &Entry) -> Result<Lsn, TreeErr>
    requires loggable { IsLoggable entry.now }
    requires room { (sizes : List ℕ) × HasRoomFor log.old (size_of entry.now ∷ sizes) }
    ensures at { IfOk result (λ at. at ≡ pos_lsn (placed_at (file_max_of log.old) (end_of log.old) (size_of entry.now))) }
    ensures grew { OnOk result (GrewFitting D.meaning log.old log.new (entry.now ∷ [])) }
    ensures left { (sizes : List ℕ) → HasRoomFor log.old (size_of entry.now ∷ sizes) → OnOk result (HasRoomFor log.new sizes) }
    ensures tried { OnErr result (TriedFitting D.meaning log.old log.new (entry.now ∷ [])) }
    ensures by_fault { IfErr result (λ e. e ≡ Reason.Fault) }
{
    match log.append_reserved(&EntryRef::Whole(entry)) {
        Ok(at) => Ok(at),
        Err(_) => Err(TreeErr::Fault),
    }
}

// Logs an image, for which there is room, and notes it at its node.
pub(crate) fn log_image<D: Disk>(
    log: &mut LogBuffer<D>,
    tree: &mut DbTree,
    image: NodeImage,
) -> Result<(), TreeErr>
    requires loggable { IsLoggable image.entry }
    requires room { (sizes : List ℕ) × HasRoomFor log.old (size_of image.entry ∷ sizes) }
    ensures grew { OnOk result (LogsImage D.meaning image log.old log.new tree.old tree.new) }
    ensures left { (sizes : List ℕ) → HasRoomFor log.old (size_of image.entry ∷ sizes) → OnOk result (HasRoomFor log.new sizes) }
    ensures tried { OnErr result (TriesImage D.meaning log.old log.new) }
    ensures by_fault { IfErr result (λ e. e ≡ Reason.Fault) }
    ensures clean { IsSome (value_at image.low (row_of tree.old.levels image.level)) → OnOk result (IsClean tree.new.levels image.level image.low) }
    ensures notes { AreNotesKept tree.old.levels tree.new.levels }
    ensures cells { tree.new.cells ≡ tree.old.cells }
    ensures waits { count_waiting (shape_in tree.new) ≤ count_waiting (shape_in tree.old) }
{
    let image = tree.finish_image(image);
    let at = append_image(log, &image.entry)?;
    tree.note_image(image.level, &image.low, at);
    let _height = tree.levels.height();
    Ok(())
}

// Logs images in order, for which there is room, and notes each at its node.
fn log_images<D: Disk>(
    log: &mut LogBuffer<D>,
    tree: &mut DbTree,
    images: Vec<NodeImage>,
) -> Result<(), TreeErr>
    requires loggable { AllByRecursion (λ i. IsLoggable i.entry) images.items }
    requires room { (sizes : List ℕ) × HasRoomFor log.old (map (λ i. size_of i.entry) images.items ++ sizes) }
    ensures grew { OnOk result (LogsImages D.meaning images.items log.old log.new tree.old tree.new) }
    ensures left { (sizes : List ℕ) → HasRoomFor log.old (map (λ i. size_of i.entry) images.items ++ sizes) → OnOk result (HasRoomFor log.new sizes) }
    ensures tried { OnErr result (TriesImages D.meaning log.old log.new) }
    ensures by_fault { IfErr result (λ e. e ≡ Reason.Fault) }
    ensures cells { tree.new.cells ≡ tree.old.cells }
    ensures waits { count_waiting (shape_in tree.new) ≤ count_waiting (shape_in tree.old) }
{
    for image in images {
        log_image(log, tree, image)?;
    }
    Ok(())
}

// Logs the images that a slot of the database needs.
fn log_room<D: Disk>(
    log: &mut LogBuffer<D>,
    trees: &mut BTreeMap<u32, DbTree>,
    db: u32,
    room: SlotRoom,
) -> Result<(), TreeErr>
    requires loggable { AllByRecursion (λ i. IsLoggable i.entry) room.images.items }
    requires room { (sizes : List ℕ) × HasRoomFor log.old (room_sizes room ++ sizes) }
    requires there { is_there trees.old db ≡ true }
    ensures grew { OnOk result (LogsRoom D.meaning db room.images.items log.old log.new trees.old trees.new) }
    ensures left { (sizes : List ℕ) → HasRoomFor log.old (room_sizes room ++ sizes) → OnOk result (HasRoomFor log.new sizes) }
    ensures tried { OnErr result (TriesImages D.meaning log.old log.new) }
    ensures by_fault { IfErr result (λ e. e ≡ Reason.Fault) }
    ensures cells { HasSameCells trees.old trees.new }
    ensures trees { HasSameTrees trees.old trees.new }
    ensures others { HasSameOthers db trees.old trees.new }
    ensures waits { waits_in trees.new ≤ waits_in trees.old }
{
    match trees.get_mut(&db) {
        Some(tree) => log_images(log, tree, room.images),
        None => unreachable!(),
    }
}

// Logs a change, for which there is room.
pub(crate) fn log_one<D: Disk>(
    log: &mut LogBuffer<D>,
    txn: TxnId,
    change: &TreeChange,
) -> Result<Lsn, TreeErr>
    requires entry { IsEntry (entry_for txn change.now.db change.now.name change.now.value) }
    requires room { (sizes : List ℕ) × HasRoomFor log.old (change_size change.now ∷ sizes) }
    ensures at { IfOk result (λ at. at ≡ pos_lsn (placed_at (file_max_of log.old) (end_of log.old) (size_of (entry_for txn change.now.db change.now.name change.now.value)))) }
    ensures grew { OnOk result (GrewFitting D.meaning log.old log.new (entry_for txn change.now.db change.now.name change.now.value ∷ [])) }
    ensures left { (sizes : List ℕ) → HasRoomFor log.old (change_size change.now ∷ sizes) → OnOk result (HasRoomFor log.new sizes) }
    ensures tried { OnErr result (TriedFitting D.meaning log.old log.new (entry_for txn change.now.db change.now.name change.now.value ∷ [])) }
    ensures by_fault { IfErr result (λ e. e ≡ Reason.Fault) }
{
    match log.append_reserved(&entry_of(txn, change)) {
        Ok(at) => Ok(at),
        Err(_) => Err(TreeErr::Fault),
    }
}

// Logs a change and sets it in its cell. It gives the LSN of its entry.
fn write_entry<D: Disk>(
    log: &mut LogBuffer<D>,
    trees: &mut BTreeMap<u32, DbTree>,
    txn: TxnId,
    change: &TreeChange,
    write: Box<Write>,
) -> Result<Lsn, TreeErr>
    requires entry { IsEntry (entry_for txn change.now.db change.now.name change.now.value) }
    requires room { (sizes : List ℕ) × HasRoomFor log.old (change_size change.now ∷ sizes) }
    requires there { HasOne trees.old change.now.db change.now.name }
    requires write { write.value ≡ write_for txn change.now }
    ensures at { IfOk result (λ at. at ≡ pos_lsn (placed_at (file_max_of log.old) (end_of log.old) (size_of (entry_for txn change.now.db change.now.name change.now.value)))) }
    ensures grew { OnOk result ((due : ℕ → List Due) → GrewForest D.meaning log.old log.new trees.old trees.new due due (entry_for txn change.now.db change.now.name change.now.value ∷ [])) }
    ensures left { (sizes : List ℕ) → HasRoomFor log.old (change_size change.now ∷ sizes) → OnOk result (HasRoomFor log.new sizes) }
    ensures tried { OnErr result (TriedFitting D.meaning log.old log.new (entry_for txn change.now.db change.now.name change.now.value ∷ [])) }
    ensures by_fault { IfErr result (λ e. e ≡ Reason.Fault) }
    ensures cells { OnOk result ((at : ℕ) × HasChange (cells_seen trees.old) (cells_seen trees.new) change.now.db change.now.name (with_change (record { txn = txn; at = at; value = change.now.value }))) }
    ensures kept { KeepsCells trees.old trees.new }
    ensures trees { HasSameTrees trees.old trees.new }
    ensures others { HasSameOthers change.now.db trees.old trees.new }
    ensures rising { (d : ℕ) → IsRising (cells_seen trees.old d) → IsRising (cells_seen trees.new d) }
    ensures waits { waits_in trees.new ≡ waits_in trees.old }
{
    let at = log_one(log, txn, change)?;
    let mut write = write;
    write.at = at;
    forest::set_write(trees, change.db, &change.name, write);
    Ok(at)
}

// Logs a change behind the images that its slot needs, and sets it in its cell. It gives the LSN of the change's entry.
pub(crate) fn write_one<D: Disk>(
    log: &mut LogBuffer<D>,
    trees: &mut BTreeMap<u32, DbTree>,
    txn: TxnId,
    change: &TreeChange,
    room: SlotRoom,
    write: Box<Write>,
) -> Result<Lsn, TreeErr>
    requires entry { IsEntry (entry_for txn change.now.db change.now.name change.now.value) }
    requires loggable { AllByRecursion (λ i. IsLoggable i.entry) room.images.items }
    requires room { (sizes : List ℕ) × HasRoomFor log.old (room_sizes room ++ change_size change.now ∷ sizes) }
    requires there { HasOne trees.old change.now.db change.now.name }
    requires write { write.value ≡ write_for txn change.now }
    ensures grew { IfOk result (λ at. LogsChangeAt D.meaning room.images.items txn change.now at log.old log.new trees.old trees.new) }
    ensures left { (sizes : List ℕ) → HasRoomFor log.old (room_sizes room ++ change_size change.now ∷ sizes) → OnOk result (HasRoomFor log.new sizes) }
    ensures tried { OnErr result (TriesChange D.meaning txn change.now log.old log.new) }
    ensures by_fault { IfErr result (λ e. e ≡ Reason.Fault) }
    ensures cells { OnOk result ((at : ℕ) × HasChange (cells_seen trees.old) (cells_seen trees.new) change.now.db change.now.name (with_change (record { txn = txn; at = at; value = change.now.value }))) }
    ensures kept { KeepsCells trees.old trees.new }
    ensures trees { HasSameTrees trees.old trees.new }
    ensures others { HasSameOthers change.now.db trees.old trees.new }
    ensures rising { (d : ℕ) → IsRising (cells_seen trees.old d) → IsRising (cells_seen trees.new d) }
    ensures waits { waits_in trees.new ≤ waits_in trees.old }
{
    match log_room(log, trees, change.db, room) {
        Ok(()) => write_entry(log, trees, txn, change, write),
        Err(error) => {
            drop(write);
            Err(error)
        }
    }
}

// Keeps an LSN, where there is none before it.
fn keep_first(first: &mut Option<Lsn>, at: Lsn)
    ensures { first.new ≡ option_or first.old (Some at) }
{
    if first.is_none() {
        *first = Some(at);
    }
}

// Logs changes in order, each behind the images that its slot needs, and sets each in its cell. It gives the LSN of the first change's entry.
pub(crate) fn write_each<D: Disk>(
    log: &mut LogBuffer<D>,
    trees: &mut BTreeMap<u32, DbTree>,
    txn: TxnId,
    changes: &[TreeChange],
    rooms: Vec<SlotRoom>,
    writes: Vec<Box<Write>>,
) -> Result<Option<Lsn>, TreeErr>
    requires entries { AllByRecursion (λ c. IsEntry (entry_for txn c.db c.name c.value)) changes.now }
    requires loggable { AreLoggable rooms.items }
    requires paired { length rooms.items ≡ length changes.now }
    requires room { (owed : ℕ) × HasRoomFor log.old (placed_sizes changes.now rooms.items ++ commit_sizes owed) }
    requires there { AllByRecursion (λ c. HasOne trees.old c.db c.name) changes.now }
    requires writes { map (λ b. b.value) writes.items ≡ map (write_for txn) changes.now }
    ensures grew { IfOk result (λ first. (entries : List Entry) × LogsChanges txn changes.now entries × GrewForest D.meaning log.old log.new trees.old trees.new (due_of changes.now rooms.items) none_due entries × (length entries ≡ count_images rooms.items + length changes.now) × (first ≡ first_in log.old entries)) }
    ensures left { (owed : ℕ) → HasRoomFor log.old (placed_sizes changes.now rooms.items ++ commit_sizes owed) → OnOk result (HasRoomFor log.new (commit_sizes owed)) }
    ensures tried { OnErr result ((entries : List Entry) × (front : List Entry) × LogsChanges txn changes.now entries × IsFront front entries × TriedFitting D.meaning log.old log.new front) }
    ensures by_fault { IfErr result (λ e. e ≡ Reason.Fault) }
    ensures cells { OnOk result (AreWritten txn changes.now (cells_seen trees.old) (cells_seen trees.new)) }
    ensures trees { HasSameTrees trees.old trees.new }
    ensures rising { (d : ℕ) → IsRising (cells_seen trees.old d) → IsRising (cells_seen trees.new d) }
    ensures waits { waits_in trees.new ≤ waits_in trees.old }
{
    let mut rooms = rooms.into_iter();
    let mut writes = writes.into_iter();
    let mut first = None;
    for change in changes {
        let Some(room) = rooms.next() else {
            unreachable!()
        };
        let Some(write) = writes.next() else {
            unreachable!()
        };
        let at = write_one(log, trees, txn, change, room, write)?;
        keep_first(&mut first, at);
    }
    Ok(first)
}

// Logs a Commit, for which there is room.
pub(crate) fn log_commit<D: Disk>(log: &mut LogBuffer<D>, txn: TxnId) -> Result<Lsn, TreeErr>
    requires { (sizes : List ℕ) × HasRoomFor log.old (commit_size ∷ sizes) }
    ensures at { IfOk result (λ at. at ≡ pos_lsn (placed_at (file_max_of log.old) (end_of log.old) commit_size)) }
    ensures grew { OnOk result (GrewFitting D.meaning log.old log.new (Committed txn ∷ [])) }
    ensures left { (sizes : List ℕ) → HasRoomFor log.old (commit_size ∷ sizes) → OnOk result (HasRoomFor log.new sizes) }
    ensures tried { OnErr result (TriedFitting D.meaning log.old log.new (Committed txn ∷ [])) }
    ensures by_fault { IfErr result (λ e. e ≡ Reason.Fault) }
{
    let commit = Entry::Commit { txn };
    match log.append_reserved(&EntryRef::Whole(&commit)) {
        Ok(at) => Ok(at),
        Err(_) => Err(TreeErr::Fault),
    }
}

// Commits the changes of names, by the Commit at `at`.
pub(crate) fn commit_each(trees: &mut BTreeMap<u32, DbTree>, names: &[TreeName], at: Lsn)
    ensures steps { MakesSteps (CommitsName at) names.now trees.old trees.new }
    ensures cells { HasChangedAll (cells_seen trees.old) (cells_seen trees.new) names.now after_commit }
    ensures trees { HasSameTrees trees.old trees.new }
    ensures rising { (d : ℕ) → IsRising (cells_seen trees.old d) → IsRising (cells_seen trees.new d) }
    ensures waits { waits_in trees.new ≡ waits_in trees.old }
{
    for name in names {
        forest::commit(trees, name.db, &name.name, at);
    }
}

// Gives the changes of names up.
pub(crate) fn abort_each(trees: &mut BTreeMap<u32, DbTree>, names: &[TreeName])
    ensures steps { MakesSteps GivesUpName names.now trees.old trees.new }
    ensures cells { HasChangedAll (cells_seen trees.old) (cells_seen trees.new) names.now after_abort }
    ensures trees { HasSameTrees trees.old trees.new }
    ensures rising { (d : ℕ) → IsRising (cells_seen trees.old d) → IsRising (cells_seen trees.new d) }
    ensures waits { waits_in trees.new ≡ waits_in trees.old }
{
    for name in names {
        forest::abort(trees, name.db, &name.name);
    }
}
