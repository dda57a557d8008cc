// The nodes of the trees of all databases.
ghost use Rattle.std.specs.Prelude.{◌≡◌, ◌≤◌, ◌++◌, ◌∷◌, ◌&&◌, [], true, IfOk, IfSome, OnOk};
ghost use Rattle.std.specs.Ordering.{nat_cmp};
ghost use Rattle.std.specs.BTreeMap.{get};
ghost use Rattle.db_tree.specs.declared.tree.DbTree.{DbTree as Tree};
ghost use Rattle.tree_images.specs.Roots.{AreRootsOf, root_image};
ghost use Rattle.record_map.specs.Cells.{IsRising};
ghost use Rattle.tree_nodes.specs.Levels.{AreParts};
ghost use Rattle.record_tree.specs.Nodes.{IsNext, place_cmp};
ghost use Rattle.dirty_nodes.specs.Marks.{AllFrom, IsMarkOr};
ghost use Rattle.dirty_nodes.specs.Forest.{AreNotedTrees, HasAllNumbers, IsFrom, IsMarkOrIn, IsSince, is_dirty_in, is_noted_in, left_in, root_for};
ghost use Rattle.dirty_nodes.specs.Steps.{AreNotedFor, IsNextAt, is_first};

use db_tree::DbTree;
use je_lsn::Lsn;
use log_entry::Root;
use record_map::SortKey;
use record_tree::NodePlace;
use std::alloc::{AllocError, Global};
use std::cmp::Ordering;
use std::collections::BTreeMap;

/// The numbers of all databases.
pub fn databases_in(forest: &BTreeMap<u32, DbTree>, alloc: Global) -> Result<Vec<u32>, AllocError>
    ensures { IfOk result (λ dbs. HasAllNumbers forest.now dbs.items) }
{
    let mut dbs = Vec::new(alloc);
    for (db, _tree) in forest {
        dbs.push(*db)?;
    }
    Ok(dbs)
}

// Notes the nodes of a database's tree that are dirty and those above them, if it has one.
fn note_one(forest: &mut BTreeMap<u32, DbTree>, db: &u32)
    ensures { AreNotedFor (db.now ∷ []) forest.old forest.new }
{
    match forest.get_mut(db) {
        Some(tree) => tree.note_dirty(),
        None => {}
    }
}

/// Notes the nodes that are dirty and those above them, and no others, in the trees of all databases. It takes no memory, and goes over all
/// nodes.
pub fn note_in(forest: &mut BTreeMap<u32, DbTree>, dbs: &[u32])
    requires { HasAllNumbers forest.old dbs.now }
    ensures { AreNotedTrees forest.old forest.new }
{
    for db in dbs {
        note_one(forest, db);
    }
}

// The next node of a database's tree that a checkpoint logs, if there is one.
fn next_at(tree: &DbTree, alloc: Global, db: u32) -> Result<Option<NodePlace>, AllocError>
    ensures { IfOk result (IsNextAt db tree.now.levels) }
{
    match tree.levels.next_due() {
        Some((level, low, node)) => Ok(Some(NodePlace {
            level,
            db,
            node: node.number,
            low: low.copy(alloc)?,
        })),
        None => Ok(None),
    }
}

// Which of two nodes is logged first.
fn place_cmp(a: &NodePlace, b: &NodePlace) -> Ordering
    ensures { result ≡ place_cmp a.now b.now }
{
    let later = a.db.cmp(&b.db).then(a.node.cmp(&b.node));
    a.level.cmp(&b.level).then(later)
}

// Whether a node is logged before another one, if there is one.
fn is_first(place: &NodePlace, found: &Option<NodePlace>) -> bool
    ensures { result ≡ is_first place.now found.now }
{
    match found {
        Some(other) => match place_cmp(place, other) {
            Ordering::Less => true,
            _ => false,
        },
        None => true,
    }
}

/// The next node that a checkpoint logs: of those that are noted and dirty the one of the lowest level, then of the lowest database, then
/// with the lowest number. It goes over the levels up to that one.
pub fn next_in(
    forest: &BTreeMap<u32, DbTree>,
    alloc: Global,
) -> Result<Option<NodePlace>, AllocError>
    ensures { IfOk result (IsNext (λ p. is_noted_in forest.now p && is_dirty_in forest.now p)) }
{
    let mut found: Option<NodePlace> = None;
    for (db, tree) in forest {
        if let Some(place) = next_at(tree, alloc, *db)? {
            if is_first(&place, &found) {
                found = Some(place);
            } else {
                drop(place);
            }
        }
    }
    Ok(found)
}

/// How many nodes are noted and dirty; None where these are 2^64 or more. It goes over the levels.
pub fn count_in(forest: &BTreeMap<u32, DbTree>) -> Option<u64>
    ensures { IfSome result (λ count. count ≡ left_in forest.now) }
{
    let mut count = 0u64;
    for (_db, tree) in forest {
        count = count.checked_add(tree.levels.count_due()?)?;
    }
    Some(count)
}

/// Whether no node waits to be logged, and no image lacks what was logged before an LSN. It goes over all nodes.
pub fn is_since_in(forest: &BTreeMap<u32, DbTree>, since: Lsn) -> bool
    ensures { result ≡ true → IsSince forest.now since }
{
    for (_db, tree) in forest {
        if !tree.levels.is_since(since) {
            return false;
        }
    }
    true
}

// The least of an LSN and of those from which on images of nodes of a tree lack something.
fn least_mark(tree: &DbTree, bound: Lsn) -> Lsn
    ensures upto { result ≤ bound }
    ensures all { AllFrom result tree.now.levels }
    ensures some { IsMarkOr bound tree.now.levels result }
    ensures parts { AreParts tree.now.levels }
    ensures rising { IsRising tree.now.cells }
{
    let _len = tree.cells.len();
    tree.levels.least_mark(bound)
}

/// The least of an LSN and of those from which on images of nodes lack something. It goes over all nodes.
pub fn least_mark_in(forest: &BTreeMap<u32, DbTree>, bound: Lsn) -> Lsn
    ensures upto { result ≤ bound }
    ensures all { IsFrom forest.now result }
    ensures some { IsMarkOrIn bound forest.now result }
{
    let mut least = bound;
    for (_db, tree) in forest {
        least = least_mark(tree, least);
    }
    least
}

// Where the last image of a tree's root stands, if it has one.
fn root_image(tree: &DbTree, least: &SortKey) -> Option<Lsn>
    requires { least.now ≡ record { key = []; dup = [] } }
    ensures { result ≡ root_image tree.now }
{
    let height = tree.levels.height();
    match tree.levels.at(height - 1, least) {
        Some(node) => node.last,
        None => None,
    }
}

// Puts a tree's root behind the others, if it has an image.
fn push_root(
    roots: &mut Vec<Root>,
    db: u32,
    tree: &DbTree,
    least: &SortKey,
) -> Result<(), AllocError>
    requires { least.now ≡ record { key = []; dup = [] } }
    ensures { OnOk result (roots.new.items ≡ roots.old.items ++ root_for db (root_image tree.now)) }
{
    match root_image(tree, least) {
        Some(image) => {
            roots.push(Root { db, image })?;
            Ok(())
        }
        None => Ok(()),
    }
}

/// The roots of all trees that have an image.
pub fn roots_in(forest: &BTreeMap<u32, DbTree>, alloc: Global) -> Result<Vec<Root>, AllocError>
    ensures { IfOk result (λ roots. AreRootsOf (get nat_cmp forest.now) roots.items) }
{
    let least = SortKey::plain(alloc, &[])?;
    let mut roots = Vec::new(alloc);
    for (db, tree) in forest.iter() {
        push_root(&mut roots, *db, tree, &least)?;
    }
    Ok(roots)
}
