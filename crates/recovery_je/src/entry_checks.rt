// Checking the entries of a log.
ghost use Rattle.std.specs.Prelude.{◌≡◌, ◌++◌, ℕ, List as Items, None, IfOk, false, map, unwrap_or};
ghost use Rattle.std.specs.List.{AllByRecursion};
ghost use Rattle.je_disk.specs.States.{AreRisingNumbers};
ghost use Rattle.log_entry.specs.Body.{IsEntry};
ghost use Rattle.log_trees.specs.Placed.{AreInOrder, Placed};
ghost use Rattle.log_meaning.specs.Checkpoint.{last_end, no_checkpoint};
ghost use Rattle.log_meaning.specs.Meaning.{rows_of};
ghost use Rattle.check_laws.specs.declared.finding.Finding.TheVariants.{Wrong};
ghost use Rattle.check_laws.specs.Check.{counts_left, findings_in, redo_checked, redo_findings, trees_checked};
ghost use Rattle.check_laws.specs.Rest.{rows_left};
ghost use Rattle.recovery_je.specs.Noting.{AreNotesOf};
ghost use Rattle.recovery_je.specs.Recovering.{HoldsRedo};

use crate::checkpoint_end::{CheckpointEnd, or_none};
use crate::gap_checks::note_redo;
use crate::log_read::LogRead;
use crate::read_notes::ReadNotes;
use crate::record_checks::check_records;
use crate::recovering::{redo_begin, redo_entries};
use crate::rest_checks::check_rest;
use crate::root_checks::check_roots;
use crate::tree_check::TreeCheck;
use crate::walking::Walking;
use check_laws::{DatabaseCount, Finding};
use je_lsn::FileNo;
use je_order::List;
use record_tree::{LoadErr, Loads};
use std::alloc::Global;

/// Trees that hold what is right in a log, and what was found wrong up to the redo.
#[derive(Drop)]
struct RedoCheck<T> {
    trees: T,
    findings: List<Finding>,
}

/// What a check of a log's entries comes to: the counts of the databases that are left, by name, and all findings.
#[derive(Drop)]
pub(crate) struct EntryCheck {
    pub(crate) databases: List<DatabaseCount>,
    pub(crate) findings: List<Finding>,
}

// The end of the last checkpoint, or what stands for it.
fn last_of<'a>(end: &'a Option<CheckpointEnd>, none: &'a CheckpointEnd) -> &'a CheckpointEnd
    requires { none.now ≡ no_checkpoint }
    ensures { result.now ≡ unwrap_or end.now no_checkpoint }
{
    match end {
        Some(end) => end,
        None => none,
    }
}

// Checks the trees of the last checkpoint's roots and the files from its redo LSN on, and redoes the entries from there over what is right
// in the trees.
fn check_redo<T: Loads + Drop>(
    alloc: Global,
    files: &[FileNo],
    entries: LogRead,
    end: Option<CheckpointEnd>,
    trees: T,
) -> Result<RedoCheck<T>, LoadErr>
    requires files { AreRisingNumbers files.now }
    requires empty { (d : ℕ) → T.has_tree trees d ≡ false }
    requires order { AreInOrder entries }
    requires entries { AllByRecursion (λ p. IsEntry p.1) entries }
    requires end { end ≡ last_end entries }
    ensures findings { IfOk result (λ check. check.findings ≡ map Wrong (trees_checked (map (λ f. f.0) files.now) entries).found ++ redo_findings (map (λ f. f.0) files.now) (last_end entries)) }
    ensures redone { IfOk result (λ check. HoldsRedo (redo_checked (map (λ f. f.0) files.now) entries) (T.stored check.trees)) }
{
    let none = or_none(alloc, None);
    let last = last_of(&end, &none);
    let TreeCheck {
        walking,
        mut findings,
    } = check_roots(alloc, files, &entries, last, trees)?;
    note_redo(&mut findings, files, &end)?;
    let Walking {
        mut trees,
        keeps: _,
        seen,
        node,
        db: _,
    } = walking;
    drop(seen);
    trees.begin_redo(node, redo_begin(files, last.redo));
    let mut entries = entries;
    let trees = redo_entries(alloc, trees, last.redo, &mut entries, false)?;
    Ok(RedoCheck { trees, findings })
}

// Checks the records in trees, and counts what is left.
fn check_trees<T: Loads + Drop>(alloc: Global, check: RedoCheck<T>) -> Result<EntryCheck, LoadErr>
    ensures findings { (files : Items ℕ) (es : Items Placed) → check.findings ≡ map Wrong (trees_checked files es).found ++ redo_findings files (last_end es) → HoldsRedo (redo_checked files es) (T.stored check.trees) → IfOk result (λ made. made.findings ≡ findings_in files es) }
    ensures databases { (files : Items ℕ) (es : Items Placed) → HoldsRedo (redo_checked files es) (T.stored check.trees) → IfOk result (λ made. made.databases ≡ counts_left (rows_left (rows_of (redo_checked files es)))) }
{
    let RedoCheck {
        trees,
        mut findings,
    } = check;
    let left = check_records(alloc, &trees, &mut findings)?;
    let databases = check_rest(alloc, &trees, &left, &mut findings)?;
    Ok(EntryCheck {
        databases,
        findings,
    })
}

/// Checks the entries of files of these numbers: the trees of the last checkpoint's roots, the files from its redo LSN on, the records of
/// the redo, and the indexes. The only error is Memory.
pub(crate) fn check_entries<T: Loads + Drop>(
    alloc: Global,
    files: &[FileNo],
    entries: LogRead,
    notes: ReadNotes,
    trees: T,
) -> Result<EntryCheck, LoadErr>
    requires files { AreRisingNumbers files.now }
    requires empty { (d : ℕ) → T.has_tree trees d ≡ false }
    requires order { AreInOrder entries }
    requires entries { AllByRecursion (λ p. IsEntry p.1) entries }
    requires noted { AreNotesOf entries notes }
    ensures findings { IfOk result (λ check. check.findings ≡ findings_in (map (λ f. f.0) files.now) entries) }
    ensures databases { IfOk result (λ check. check.databases ≡ counts_left (rows_left (rows_of (redo_checked (map (λ f. f.0) files.now) entries)))) }
{
    let ReadNotes { end, .. } = notes;
    let redone = check_redo(alloc, files, entries, end, trees)?;
    check_trees(alloc, redone)
}
