// The trees of the databases that the catalog names.
ghost use Rattle.std.specs.Prelude.{◌≡◌, ℕ, List as Items, true, length, sum_by, OnOk, IfOk};
ghost use Rattle.log_trees.specs.Placed.{Placed};
ghost use Rattle.record_tree.specs.Stored.{AreStoredStill};
ghost use Rattle.recovery_je.specs.Finishing.{is_kept as is_kept_in, HaveTrees, HasDropped, IsFinished};

use crate::redoing::ensure_tree;
use db_catalog::CATALOG;
use record_tree::{LoadErr, Loads};
use std::alloc::{AllocError, Global};

// Makes a tree for each of these databases that has none, in order.
fn make_missing<T: Loads>(trees: &mut T, alloc: Global, numbers: &[u32]) -> Result<(), LoadErr>
    ensures stored { OnOk result (AreStoredStill (T.stored trees.old) (T.stored trees.new)) }
    ensures fits { (es : Items Placed) (base : ℕ) → T.fits trees.old es base → OnOk result (T.fits trees.new es base) }
    ensures there { OnOk result (HaveTrees numbers.now (T.has_tree trees.new)) }
    ensures others { OnOk result ((d : ℕ) → T.has_tree trees.old d ≡ true → T.has_tree trees.new d ≡ true) }
{
    for number in numbers {
        ensure_tree(trees, alloc, *number)?;
    }
    Ok(())
}

// Whether a database is the catalog or among these.
fn is_kept(numbers: &[u32], db: u32) -> bool
    ensures { result ≡ is_kept_in numbers.now db }
{
    db == CATALOG || numbers.contains(&db)
}

// Takes out the tree of a database, if it is neither the catalog nor among these.
fn drop_unnamed<T: Loads>(trees: &mut T, numbers: &[u32], db: u32)
    ensures dropped { HasDropped numbers.now db (T.has_tree trees.old) (T.has_tree trees.new) (T.stored trees.old) (T.stored trees.new) }
    ensures fits { (es : Items Placed) (base : ℕ) → T.fits trees.old es base → T.fits trees.new es base }
{
    if !is_kept(numbers, db) {
        trees.drop_db(db);
    }
}

// Takes out the trees of all databases but the catalog and these, which have trees.
fn drop_others<T: Loads>(trees: &mut T, alloc: Global, numbers: &[u32]) -> Result<(), AllocError>
    requires catalog { T.has_tree trees.old 0 ≡ true }
    requires there { HaveTrees numbers.now (T.has_tree trees.old) }
    ensures finished { OnOk result (IsFinished numbers.now (T.has_tree trees.new) (T.stored trees.old) (T.stored trees.new)) }
    ensures fits { (es : Items Placed) (base : ℕ) → T.fits trees.old es base → OnOk result (T.fits trees.new es base) }
{
    for db in trees.databases(alloc)? {
        drop_unnamed(trees, numbers, db);
    }
    Ok(())
}

/// Leaves a tree for the catalog and for each of these databases, and no others. Those that are missing are made
/// in rising number.
pub(crate) fn finish<T: Loads>(
    trees: &mut T,
    alloc: Global,
    numbers: Vec<u32>,
) -> Result<(), LoadErr>
    ensures finished { OnOk result (IsFinished numbers.items (T.has_tree trees.new) (T.stored trees.old) (T.stored trees.new)) }
    ensures fits { (es : Items Placed) (base : ℕ) → T.fits trees.old es base → OnOk result (T.fits trees.new es base) }
{
    let mut numbers = numbers;
    numbers.sort_unstable();
    ensure_tree(trees, alloc, CATALOG)?;
    make_missing(trees, alloc, &numbers)?;
    drop_others(trees, alloc, &numbers)?;
    Ok(())
}

/// How many records these databases have; a count beyond a u64's is answered as out of memory.
pub(crate) fn count_records<T: Loads>(trees: &T, numbers: &[u32]) -> Result<u64, AllocError>
    ensures { IfOk result (λ count. count ≡ sum_by (λ n. length (T.stored trees.now n)) numbers.now) }
{
    let mut records = 0u64;
    for number in numbers {
        let Some(sum) = records.checked_add(trees.count(*number) as u64) else {
            return Err(AllocError);
        };
        records = sum;
    }
    Ok(records)
}
