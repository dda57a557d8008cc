// The trees of a checkpoint's roots.
ghost use Rattle.std.specs.Prelude.{◌≡◌, ℕ, false, Err, IfOk, IfErr, OnOk, map, option_copied};
ghost use Rattle.std.specs.List.{AllByRecursion};
ghost use Rattle.log_entry.specs.Body.{IsEntry};
ghost use Rattle.log_trees.specs.Placed.{AreInOrder};
ghost use Rattle.log_trees.specs.Sound.{least_name};
ghost use Rattle.log_trees.specs.Walk.{Walk, each, read_image as image_at, read_level as level_at, read_root as root_at, read_roots as read_roots_of};
ghost use Rattle.log_meaning.specs.ReadNodes.{AreLoadedEach, IsRootLoaded};
ghost use Rattle.recovery_je.specs.Putting.{HasPut, as_loaded, level_put, AreRootsPut};
ghost use Rattle.recovery_je.specs.Recovering.{IsWalked, IsFoundBy};
ghost use Rattle.recovery_je.specs.Walking.{Answers, IsWalking, GoesOn, level_read};

use crate::checkpoint_end::CheckpointEnd;
use crate::descending::read_node;
use crate::images::{nowhere, read_image};
use crate::log_read::LogRead;
use crate::read_err::ReadErr;
use crate::walking::Walking;
use je_lsn::{FileNo, Lsn};
use je_order::{Name, Octets};
use log_entry::Root;
use log_replay::Corruption;
use record_tree::Loads;
use std::alloc::Global;
use std::collections::BTreeSet;

/// The greatest numbers in trees that were read: of a node, and of a database in a catalog record.
#[derive(Clone, Copy)]
pub(crate) struct WalkNumbers {
    pub(crate) node: u64,
    pub(crate) db: u32,
}

/// Trees that were read, and the greatest numbers in them.
#[derive(Drop)]
pub(crate) struct Walked<T> {
    pub(crate) trees: T,
    pub(crate) numbers: WalkNumbers,
}

/// The level of the node that a root's image shows.
pub(crate) fn root_level(
    alloc: Global,
    files: &[FileNo],
    entries: &LogRead,
    root: &Root,
) -> Result<u8, ReadErr>
    requires order { AreInOrder entries.now }
    requires entries { AllByRecursion (λ p. IsEntry p.1) entries.now }
    ensures { Answers (level_read (image_at (map (λ f. f.0) files.now) entries.now root.now.db root.now.image)) result }
{
    let node = read_image(alloc, files, entries, root.db, root.image)?;
    let level = node.level;
    drop(node);
    Ok(level)
}

// Reads the tree whose root's image stands at an LSN, and shows a node of this level.
fn read_level<T: Loads>(
    walking: &mut Walking<T>,
    alloc: Global,
    files: &[FileNo],
    entries: &LogRead,
    d: u32,
    level: u8,
    least: &Name,
    at: Lsn,
) -> Result<(), ReadErr>
    requires least { least.now ≡ least_name }
    requires order { AreInOrder entries.now }
    requires entries { AllByRecursion (λ p. IsEntry p.1) entries.now }
    ensures walk { (walk : Walk) → IsWalking (T.stored walking.old.trees) walking.old.seen.keys walking.old.node walking.old.db walk → GoesOn (level_at (map (λ f. f.0) files.now) entries.now d level at walk) (IsWalking (T.stored walking.new.trees) walking.new.seen.keys walking.new.node walking.new.db) result }
    ensures nodes { OnOk result (HasPut (as_loaded T.nodes T.read) (level_put entries.now d level at) walking.old walking.new) }
{
    if level == 0 {
        return Err(ReadErr::Found(Corruption::Tree(at)));
    }
    read_node(
        walking,
        alloc,
        files,
        entries,
        d,
        level - 1,
        least,
        None,
        at,
    )
}

// Reads the tree of a root that a checkpoint's end at this LSN names.
fn read_root<T: Loads>(
    walking: &mut Walking<T>,
    alloc: Global,
    files: &[FileNo],
    entries: &LogRead,
    end: Lsn,
    least: &Name,
    root: &Root,
) -> Result<(), ReadErr>
    requires least { least.now ≡ least_name }
    requires order { AreInOrder entries.now }
    requires entries { AllByRecursion (λ p. IsEntry p.1) entries.now }
    ensures walk { (walk : Walk) → IsWalking (T.stored walking.old.trees) walking.old.seen.keys walking.old.node walking.old.db walk → GoesOn (root_at (map (λ f. f.0) files.now) entries.now end root.now walk) (IsWalking (T.stored walking.new.trees) walking.new.seen.keys walking.new.node walking.new.db) result }
    ensures nodes { OnOk result (HasPut (as_loaded T.nodes T.read) (λ keeps most. IsRootLoaded entries.now keeps most root.now) walking.old walking.new) }
{
    if root.image.as_u64() >= end.as_u64() {
        return Err(ReadErr::Found(nowhere(files, root.image)));
    }
    let level = root_level(alloc, files, entries, root)?;
    read_level(
        walking, alloc, files, entries, root.db, level, least, root.image,
    )
}

// Reads the trees of the roots that a checkpoint's end at this LSN names, in order.
fn read_each<T: Loads>(
    walking: &mut Walking<T>,
    alloc: Global,
    files: &[FileNo],
    entries: &LogRead,
    end: Lsn,
    least: &Name,
    roots: &[Root],
) -> Result<(), ReadErr>
    requires least { least.now ≡ least_name }
    requires order { AreInOrder entries.now }
    requires entries { AllByRecursion (λ p. IsEntry p.1) entries.now }
    ensures walk { (walk : Walk) → IsWalking (T.stored walking.old.trees) walking.old.seen.keys walking.old.node walking.old.db walk → GoesOn (each (root_at (map (λ f. f.0) files.now) entries.now end) roots.now walk) (IsWalking (T.stored walking.new.trees) walking.new.seen.keys walking.new.node walking.new.db) result }
    ensures nodes { OnOk result (HasPut (as_loaded T.nodes T.read) (λ keeps most. AreLoadedEach (IsRootLoaded entries.now keeps most) roots.now) walking.old walking.new) }
{
    for root in roots {
        read_root(walking, alloc, files, entries, end, least, root)?;
    }
    Ok(())
}

/// The least name. It takes no memory.
pub(crate) fn least_of_all(alloc: Global) -> Name
    ensures { result ≡ least_name }
{
    Name {
        key: Octets::new(alloc),
        dup: Octets::new(alloc),
    }
}

/// Reads the trees of a checkpoint's roots into trees that are empty: each database's from the left, depth
/// first, in the order of the roots. An error is the first corruption in that order, or Memory.
pub(crate) fn read_roots<T: Loads + Drop>(
    alloc: Global,
    files: &[FileNo],
    entries: &LogRead,
    end: &CheckpointEnd,
    trees: T,
) -> Result<Walked<T>, ReadErr>
    requires empty { (d : ℕ) → T.has_tree trees d ≡ false }
    requires order { AreInOrder entries.now }
    requires entries { AllByRecursion (λ p. IsEntry p.1) entries.now }
    ensures read { IfOk result (λ walked. (walk : Walk) × IsWalked (map (λ f. f.0) files.now) entries.now end.now walked.numbers (T.stored walked.trees) walk) }
    ensures nodes { IfOk result (λ walked. AreRootsPut entries.now end.now.roots walked.numbers.node (as_loaded T.nodes T.read trees) (as_loaded T.nodes T.read walked.trees)) }
    ensures found { IfErr result (λ e. IsFoundBy e (λ corruption. read_roots_of (map (λ f. f.0) files.now) entries.now end.now.at end.now.roots ≡ Err corruption)) }
{
    let least = least_of_all(alloc);
    let mut walking = Walking {
        trees,
        keeps: entries.whole,
        seen: BTreeSet::new(alloc),
        node: 0,
        db: 0,
    };
    read_each(
        &mut walking,
        alloc,
        files,
        entries,
        end.at,
        &least,
        end.roots.as_slice(),
    )?;
    let Walking {
        trees,
        keeps: _,
        seen,
        node,
        db,
    } = walking;
    drop(seen);
    drop(least);
    Ok(Walked {
        trees,
        numbers: WalkNumbers { node, db },
    })
}
