// Checking the trees of a checkpoint's roots.
ghost use Rattle.std.specs.Prelude.{◌≡◌, ℕ, false, IfOk, OnOk, map};
ghost use Rattle.std.specs.List.{AllByRecursion};
ghost use Rattle.log_entry.specs.Body.{IsEntry};
ghost use Rattle.log_trees.specs.Placed.{AreInOrder};
ghost use Rattle.log_trees.specs.Bounds.{least_name};
ghost use Rattle.check_laws.specs.Noting.{each_on};
ghost use Rattle.check_laws.specs.Trees.{check_level as level_checked, check_root as root_checked, check_roots as roots_checked};
ghost use Rattle.recovery_je.specs.TreeChecks.{ChecksBy, IsChecking};

use crate::checkpoint_end::CheckpointEnd;
use crate::images::nowhere;
use crate::log_read::LogRead;
use crate::node_checks::check_node;
use crate::roots::{least_of_all, root_level};
use crate::tree_check::{TreeCheck, note, note_failure};
use crate::walking::Walking;
use je_lsn::{FileNo, Lsn};
use je_order::{List, Name};
use log_entry::Root;
use log_replay::Corruption;
use record_tree::{LoadErr, Loads};
use std::alloc::Global;
use std::collections::BTreeSet;

// Checks the tree whose root's image stands at an LSN, and shows a node of this level.
fn check_level<T: Loads>(
    check: &mut TreeCheck<T>,
    alloc: Global,
    files: &[FileNo],
    entries: &LogRead,
    d: u32,
    level: u8,
    least: &Name,
    at: Lsn,
) -> Result<(), LoadErr>
    requires least { least.now ≡ least_name }
    requires order { AreInOrder entries.now }
    requires entries { AllByRecursion (λ p. IsEntry p.1) entries.now }
    ensures checks { OnOk result (ChecksBy T.stored (level_checked (map (λ f. f.0) files.now) entries.now d level at) check.old check.new) }
{
    if level == 0 {
        note(check, Corruption::Tree(at))?;
        return Ok(());
    }
    check_node(check, alloc, files, entries, d, level - 1, least, None, at)
}

// Checks the tree of a root that a checkpoint's end at this LSN names.
fn check_root<T: Loads>(
    check: &mut TreeCheck<T>,
    alloc: Global,
    files: &[FileNo],
    entries: &LogRead,
    end: Lsn,
    least: &Name,
    root: &Root,
) -> Result<(), LoadErr>
    requires least { least.now ≡ least_name }
    requires order { AreInOrder entries.now }
    requires entries { AllByRecursion (λ p. IsEntry p.1) entries.now }
    ensures checks { OnOk result (ChecksBy T.stored (root_checked (map (λ f. f.0) files.now) entries.now end root.now) check.old check.new) }
{
    if root.image.as_u64() >= end.as_u64() {
        note(check, nowhere(files, root.image))?;
        return Ok(());
    }
    match root_level(alloc, files, entries, root) {
        Ok(level) => check_level(
            check, alloc, files, entries, root.db, level, least, root.image,
        ),
        Err(failure) => {
            note_failure(check, failure)?;
            Ok(())
        }
    }
}

// Checks the trees of the roots that a checkpoint's end at this LSN names, in order.
fn check_each<T: Loads>(
    check: &mut TreeCheck<T>,
    alloc: Global,
    files: &[FileNo],
    entries: &LogRead,
    end: Lsn,
    least: &Name,
    roots: &[Root],
) -> Result<(), LoadErr>
    requires least { least.now ≡ least_name }
    requires order { AreInOrder entries.now }
    requires entries { AllByRecursion (λ p. IsEntry p.1) entries.now }
    ensures checks { OnOk result (ChecksBy T.stored (each_on (root_checked (map (λ f. f.0) files.now) entries.now end) roots.now) check.old check.new) }
{
    for root in roots {
        check_root(check, alloc, files, entries, end, least, root)?;
    }
    Ok(())
}

/// Checks the trees of a checkpoint's roots, and reads what is right in them into trees that are empty: each database's from the left,
/// depth first, in the order of the roots. The only error is Memory.
pub(crate) fn check_roots<T: Loads + Drop>(
    alloc: Global,
    files: &[FileNo],
    entries: &LogRead,
    end: &CheckpointEnd,
    trees: T,
) -> Result<TreeCheck<T>, LoadErr>
    requires empty { (d : ℕ) → T.has_tree trees d ≡ false }
    requires order { AreInOrder entries.now }
    requires entries { AllByRecursion (λ p. IsEntry p.1) entries.now }
    ensures checked { IfOk result (λ check. IsChecking T.stored check (roots_checked (map (λ f. f.0) files.now) entries.now end.now.at end.now.roots)) }
{
    let least = least_of_all(alloc);
    let walking = Walking {
        trees,
        keeps: entries.whole,
        seen: BTreeSet::new(alloc),
        node: 0,
        db: 0,
    };
    let mut check = TreeCheck {
        walking,
        findings: List::new(alloc),
    };
    check_each(
        &mut check,
        alloc,
        files,
        entries,
        end.at,
        &least,
        end.roots.as_slice(),
    )?;
    drop(least);
    Ok(check)
}
