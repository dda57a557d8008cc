// The search for a cycle: depth first from one transaction, lesser numbers first.
ghost use Rattle.std.specs.Prelude.{◌≡◌, ◌++◌, ◌||◌, ◌∷◌, [], false, true, reverse, List, filter, IfOk, OnOk};
ghost use Rattle.std.specs.Option.{IfSome, IfNone};
ghost use Rattle.je_order.specs.declared.txn_id.TxnId.{TxnId};
ghost use Rattle.je_order.specs.Transactions.{is_same_txn};
ghost use Rattle.waits_for.specs.Cycles.{is_edge, is_from, is_in, closes, begins_with, IsFirstCycle};
ghost use Rattle.waits_for.specs.Walk.{is_seen, back_to as back_along, AreRising, IsWalk, IsAtEdge, left};

use crate::Edges;
use je_order::TxnId;
use std::alloc::{AllocError, Global};
use std::collections::BTreeSet;

/// The first cycle through the transaction, from it on, or None exactly where there is none. A cycle names no
/// transaction twice; where the answer is None, no list that names one twice leads back to it either.
/// The search looks only at what the transaction waits for by way of others. It goes depth first, lesser
/// numbers first, and so finds the cycle that comes first number by number. The one error is out of memory.
pub fn find_cycle(
    alloc: Global,
    edges: &Edges,
    from: TxnId,
) -> Result<Option<Vec<TxnId>>, AllocError>
    ensures found { IfOk result (λ found. IfSome found (λ list. IsFirstCycle (is_edge edges.now) from list.items)) }
    ensures none { IfOk result (λ found. IfNone found ((list : List TxnId) → closes edges.now list ≡ true → is_in from list ≡ false)) }
{
    let mut seen = BTreeSet::new(alloc);
    let mut path = Vec::new(alloc);
    let mut todo = Vec::new(alloc);
    visit(alloc, edges, &mut seen, &mut path, &mut todo, from)?;
    while let Some((x, y)) = todo.pop() {
        back_to(&mut path, x);
        if y == from {
            return Ok(Some(path));
        }
        follow(alloc, edges, from, &mut seen, &mut path, &mut todo, x, y)?;
    }
    Ok(None)
}

// Whether a path ends with a transaction, or is empty.
fn is_back_at(path: &[TxnId], x: TxnId) -> bool
    ensures at { result ≡ true → back_along x (reverse path.now) ≡ reverse path.now }
    ensures not_at { result ≡ false → (last : TxnId) (others : List TxnId) → path.now ≡ others ++ last ∷ [] → is_same_txn x last ≡ false }
    ensures some { result ≡ false → path.now ≡ [] → ⊥ }
{
    match path.last() {
        None => true,
        Some(last) => x == *last,
    }
}

// Goes back along a path to a transaction.
fn back_to(path: &mut Vec<TxnId>, x: TxnId)
    ensures { reverse path.new.items ≡ back_along x (reverse path.old.items) }
{
    while !is_back_at(path.as_slice(), x) {
        let _ = path.pop();
    }
}

// A transaction is seen: the path leads on to it, and its edges are to be followed next.
fn visit(
    alloc: Global,
    edges: &Edges,
    seen: &mut BTreeSet<TxnId>,
    path: &mut Vec<TxnId>,
    todo: &mut Vec<(TxnId, TxnId)>,
    y: TxnId,
) -> Result<(), AllocError>
    ensures seen { OnOk result ((q : TxnId) → is_seen seen.new q ≡ (is_same_txn y q || is_seen seen.old q)) }
    ensures path { OnOk result (path.new.items ≡ path.old.items ++ y ∷ []) }
    ensures todo { OnOk result (todo.new.items ≡ todo.old.items ++ reverse (filter (is_from y) edges.now)) }
    ensures rising { OnOk result (AreRising (filter (is_from y) edges.now)) }
{
    let mut more = edges.from(alloc, y)?;
    todo.append(&mut more)?;
    path.push(y)?;
    seen.insert(y)?;
    Ok(())
}

// Follows an edge to a transaction: if it was not seen before, its edges are to be followed too.
fn follow(
    alloc: Global,
    edges: &Edges,
    from: TxnId,
    seen: &mut BTreeSet<TxnId>,
    path: &mut Vec<TxnId>,
    todo: &mut Vec<(TxnId, TxnId)>,
    x: TxnId,
    y: TxnId,
) -> Result<(), AllocError>
    requires turn { IsAtEdge edges.now from (is_seen seen.old) (reverse path.old.items) (reverse todo.old.items) x y }
    requires other { is_same_txn y from ≡ false }
    ensures walk { OnOk result (IsWalk edges.now from (is_seen seen.new) (reverse path.new.items) (reverse todo.new.items)) }
    ensures left { OnOk result (left edges.now (is_seen seen.new) todo.new.items ≡ left edges.now (is_seen seen.old) todo.old.items) }
{
    if seen.contains(&y) {
        return Ok(());
    }
    visit(alloc, edges, seen, path, todo, y)
}
