// Recovery from the entries of a log.
ghost use Rattle.std.specs.Prelude.{◌≡◌, ◌<◌, ◌^◌, ℕ, List as Items, true, false, None, Ok, Err, IfOk, IfErr, map};
ghost use Rattle.log_trees.specs.Walk.{Walk, and_then, read_roots as read_roots_of};
ghost use Rattle.je_disk.specs.States.{AreRisingNumbers};
ghost use Rattle.std.specs.List.{AllByRecursion};
ghost use Rattle.log_entry.specs.Body.{IsEntry};
ghost use Rattle.log_trees.specs.Placed.{AreInOrder};
ghost use Rattle.log_trees.specs.Changes.{LoggedChange};
ghost use Rattle.log_meaning.specs.Redo.{redone};
ghost use Rattle.log_meaning.specs.Checkpoint.{behind};
ghost use Rattle.log_meaning.specs.Meaning.{most};
ghost use Rattle.log_meaning.specs.Reading.{redo_corruption as redo_corruption_of, unless, meaning_in};
ghost use Rattle.recovery_je.specs.Indexing.{IsIndexCheck};
ghost use Rattle.recovery_je.specs.Noting.{AreNotesOf};
ghost use Rattle.recovery_je.specs.Putting.{as_loaded, AreRootsPut, HasReadAgain, count_redone};
ghost use Rattle.recovery_je.specs.Recovering.{HoldsChanges, HoldsRedo, IsWalked, IsMeant, IsFoundBy};

use crate::checkpoint_end::{CheckpointEnd, or_none};
use crate::gaps::{end_corruption, gap_corruption};
use crate::log_read::LogRead;
use crate::read_err::ReadErr;
use crate::read_notes::ReadNotes;
use crate::redo_count::count_from;
use crate::redoing::{Redoing, ensure_tree, take_all};
use crate::roots::{Walked, read_roots};
use crate::settling::{Settled, settle};
use crate::waiting::Waiting;
use db_catalog::CATALOG;
use je_lsn::{FileNo, Lsn};
use log_entry::Root;
use log_replay::Corruption;
use record_tree::{LoadErr, Loads};
use std::alloc::Global;

/// What a log means: its environment, the numbers that were allocated last, the number and the redo LSN of
/// the last checkpoint, and how many entries count for the nodes that were made.
#[derive(Drop)]
pub(crate) struct Meant<T: Loads> {
    pub(crate) settled: Settled<T>,
    pub(crate) last_txn: u64,
    pub(crate) last_node: u64,
    pub(crate) last_db: u32,
    pub(crate) checkpoint: u64,
    pub(crate) redo: Lsn,
    pub(crate) redone: u64,
}

/// Redoes the entries from the redo LSN on over the trees of the roots, of which a redo began.
pub(crate) fn redo_entries<T: Loads + Drop>(
    alloc: Global,
    trees: T,
    redo: Lsn,
    entries: &mut LogRead,
    keeps: bool,
) -> Result<T, LoadErr>
    requires order { AreInOrder entries.old }
    ensures redone { (rows : Items LoggedChange) → HoldsChanges rows (T.stored trees) → IfOk result (λ made. HoldsRedo (behind rows (redone redo entries.old)) (T.stored made)) }
    ensures fits { (base : ℕ) → base < 2 ^ 64 → AllByRecursion (λ p. p.0 < base) entries.old → T.fits trees entries.old base → IfOk result (λ made. T.fits made entries.old base) }
    ensures kept { keeps ≡ true → entries.new ≡ entries.old }
{
    let mut trees = trees;
    ensure_tree(&mut trees, alloc, CATALOG)?;
    let mut going = Redoing {
        trees,
        waiting: Waiting::new(alloc),
    };
    take_all(&mut going, alloc, redo, entries, keeps)?;
    let Redoing { trees, waiting } = going;
    drop(waiting);
    Ok(trees)
}

/// The redo LSN, or that of the first file's header where it is lower.
pub(crate) fn redo_begin(files: &[FileNo], redo: Lsn) -> Lsn {
    match files {
        [first, ..] if redo.as_u64() < Lsn::new(*first, 0).as_u64() => Lsn::new(*first, 0),
        _ => redo,
    }
}

// The greatest number of a root's database, 0 where there is no root.
fn greatest_db(roots: &[Root]) -> u32
    ensures { result ≡ most (λ r. r.db) roots.now }
{
    let mut greatest = 0u32;
    for root in roots {
        greatest = greatest.max(root.db);
    }
    greatest
}

// What is wrong with the redo LSN.
fn redo_corruption(files: &[FileNo], end: &Option<CheckpointEnd>) -> Option<Corruption>
    requires { AreRisingNumbers files.now }
    ensures { result ≡ redo_corruption_of (map (λ f. f.0) files.now) end.now }
{
    match end {
        Some(end) => end_corruption(files, end),
        None => gap_corruption(files),
    }
}

// Reads the trees of the roots, and tells the first corruption up to the redo.
fn read_trees<T: Loads + Drop>(
    alloc: Global,
    files: &[FileNo],
    entries: &LogRead,
    end: &CheckpointEnd,
    corruption: Option<Corruption>,
    trees: T,
) -> Result<Walked<T>, ReadErr>
    requires empty { (d : ℕ) → T.has_tree trees d ≡ false }
    requires order { AreInOrder entries.now }
    requires entries { AllByRecursion (λ p. IsEntry p.1) entries.now }
    ensures read { IfOk result (λ walked. (walk : Walk) × IsWalked (map (λ f. f.0) files.now) entries.now end.now walked.numbers (T.stored walked.trees) walk) }
    ensures nodes { IfOk result (λ walked. AreRootsPut entries.now end.now.roots walked.numbers.node (as_loaded T.nodes T.read trees) (as_loaded T.nodes T.read walked.trees)) }
    ensures right { IfOk result (λ walked. corruption ≡ None) }
    ensures found { IfErr result (λ e. IsFoundBy e (λ c. and_then (read_roots_of (map (λ f. f.0) files.now) entries.now end.now.at end.now.roots) (λ walk. unless corruption (Ok walk)) ≡ Err c)) }
{
    let walked = read_roots(alloc, files, entries, end, trees)?;
    match corruption {
        Some(corruption) => {
            drop(walked);
            Err(ReadErr::Found(corruption))
        }
        None => Ok(walked),
    }
}

/// What the entries of files of these numbers mean, or the first corruption behind those of the files. If they are not kept,
/// each file's bytes go once its entries were redone.
pub(crate) fn recover_entries<T: Loads + Drop>(
    alloc: Global,
    files: &[FileNo],
    entries: &mut LogRead,
    keeps: bool,
    notes: ReadNotes,
    trees: T,
) -> Result<Meant<T>, ReadErr>
    requires files { AreRisingNumbers files.now }
    requires empty { (d : ℕ) → T.has_tree trees d ≡ false }
    requires order { AreInOrder entries.old }
    requires entries { AllByRecursion (λ p. IsEntry p.1) entries.old }
    requires noted { AreNotesOf entries.old notes }
    ensures meant { IfOk result (λ m. IsMeant (map (λ f. f.0) files.now) entries.old (record { store = m.settled.opening; last_txn = m.last_txn; last_node = m.last_node; last_db = m.last_db; checkpoint = m.checkpoint }) (T.has_tree m.settled.trees) (T.stored m.settled.trees) m.settled.databases m.settled.records) }
    ensures fits { IfOk result (λ m. HasReadAgain T.well_formed T.nodes T.read T.stored T.last_number T.fits m.settled.trees m.redo entries.old) }
    ensures redone { IfOk result (λ m. m.redone ≡ count_redone entries.old) }
    ensures index { IfOk result (λ m. IsIndexCheck m.settled.opening m.settled.wrong_index) }
    ensures found { IfErr result (λ e. IsFoundBy e (λ c. meaning_in (map (λ f. f.0) files.now) entries.old ≡ Err c)) }
    ensures kept { keeps ≡ true → IfOk result (λ m. entries.new ≡ entries.old) }
{
    let ReadNotes { end, numbers, .. } = notes;
    let corruption = redo_corruption(files, &end);
    let end = or_none(alloc, end);
    let walked = read_trees(alloc, files, entries, &end, corruption, trees)?;
    let redone = count_from(entries, end.redo)?;
    let Walked {
        mut trees,
        numbers: in_trees,
    } = walked;
    let numbers = numbers.behind(alloc, end.redo, entries)?;
    let from = redo_begin(files, end.redo);
    let last_node = end.last_node.max(in_trees.node.max(numbers.node));
    trees.begin_redo(last_node, from);
    let trees = redo_entries(alloc, trees, end.redo, entries, keeps)?;
    let settled = settle(alloc, trees)?;
    let roots_db = greatest_db(end.roots.as_slice());
    Ok(Meant {
        settled,
        last_txn: end.last_txn.max(numbers.txn),
        last_node,
        last_db: end.last_db.max(roots_db.max(in_trees.db.max(numbers.db))),
        checkpoint: end.number,
        redo: end.redo,
        redone,
    })
}
