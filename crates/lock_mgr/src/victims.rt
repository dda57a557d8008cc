// The victims of a wait that closes cycles.
ghost use Rattle.std.specs.Prelude.{◌≡◌, ◌+◌, ◌<◌, ◌≤◌, ◌∷◌, ◌++◌, ◌&&◌, ◌||◌, ◌⊎◌, [], true, false, length, IfOk, OnOk};
ghost use Rattle.je_order.specs.declared.txn_id.TxnId.{TxnId};
ghost use Rattle.waits_for.specs.Cycles.{is_in, is_edge, is_cycle};
ghost use Rattle.je_order.specs.Transactions.{is_same_txn};
ghost use Rattle.lock_mgr.specs.Deadlock.{waits, is_greatest};
ghost use Rattle.lock_mgr.specs.Reach.{IsReach, IsFilling, BreaksAll, greater, is_reached, weight};

use je_order::{List, TxnId};
use lock_table::LockTable;
use std::alloc::{AllocError, Global};
use std::collections::BTreeSet;
use waits_for::{Edges, find_cycle};

// The greater of two transactions.
fn greater_of(a: TxnId, b: TxnId) -> TxnId
    ensures { result ≡ greater a b }
{
    if a.0 < b.0 { b } else { a }
}

// The greatest of some transactions.
fn greatest(list: &[TxnId]) -> TxnId
    requires { 0 < length list.now }
    ensures { is_greatest result list.now ≡ true }
{
    let mut found = list[0];
    for txn in list {
        found = greater_of(found, *txn);
    }
    found
}

// The victims that break every cycle through the transaction, one after another, each with its cycle.
pub(crate) fn victims_of(
    alloc: Global,
    edges: Edges,
    txn: TxnId,
) -> Result<List<(TxnId, List<TxnId>)>, AllocError>
    ensures { IfOk result (λ victims. BreaksAll (is_edge edges) txn victims) }
{
    let mut edges = edges;
    let mut victims = List::new(alloc);
    while let Some(cycle) = find_cycle(alloc, &edges, txn)? {
        let victim = greatest(cycle.as_slice());
        victims.push((victim, List::from_vec(cycle)))?;
        edges.remove(victim);
    }
    Ok(victims)
}

// The waits that are reached from a transaction; it looks at no others.
pub(crate) fn reach(alloc: Global, table: &LockTable, txn: TxnId) -> Result<Edges, AllocError>
    ensures { IfOk result (λ edges. IsReach (waits table.now) (is_edge edges) txn) }
{
    let mut edges = Edges::new(alloc);
    let mut seen = BTreeSet::new(alloc);
    let mut todo = Vec::new(alloc);
    todo.push(txn)?;
    while let Some(next) = todo.pop() {
        follow(alloc, table, txn, &mut edges, &mut seen, &mut todo, next)?;
    }
    Ok(edges)
}

// Follows a transaction: if it was not seen before, its waits become edges, and those that it waits for
// are to be looked at too.
fn follow(
    alloc: Global,
    table: &LockTable,
    txn: TxnId,
    edges: &mut Edges,
    seen: &mut BTreeSet<TxnId>,
    todo: &mut Vec<TxnId>,
    next: TxnId,
) -> Result<(), AllocError>
    requires { IsFilling (waits table.now) txn edges.old seen.old (todo.old.items ++ next ∷ []) }
    ensures filling { OnOk result (IsFilling (waits table.now) txn edges.new seen.new todo.new.items) }
    ensures left { OnOk result (weight table.now seen.new table.now.pending + length todo.new.items ≤ weight table.now seen.old table.now.pending + length todo.old.items) }
{
    if seen.contains(&next) {
        return Ok(());
    }
    let owners = table.blockers(alloc, next)?;
    put_edges(edges, next, owners.as_slice())?;
    todo.extend_from_slice(owners.as_slice())?;
    seen.insert(next)?;
    Ok(())
}

// Puts the edges from one waiter.
fn put_edges(edges: &mut Edges, waiter: TxnId, owners: &[TxnId]) -> Result<(), AllocError>
    ensures { OnOk result ((x y : TxnId) → is_edge edges.new x y ≡ ((is_same_txn x waiter && is_in y owners.now) || is_edge edges.old x y)) }
{
    for owner in owners {
        edges.insert(waiter, *owner)?;
    }
    Ok(())
}
