// The waits-for edges.
ghost use Rattle.std.specs.Prelude.{◌≡◌, ◌<◌, ◌^◌, [], ◌||◌, reverse, IfOk, OnOk, OnErr};
ghost use Rattle.std.specs.List.{All, filter};
ghost use Rattle.waits_for.specs.Cycles.{is_edge, is_from, is_pair, edges_without};
ghost use Rattle.waits_for.specs.Walk.{AreRising};

use je_order::TxnId;
use std::alloc::{AllocError, Global};
use std::collections::BTreeSet;
use std::marker::Model;

/// Who waits for whom, seen as a list of pairs: the one that waits first, then the one that it waits
/// for. Each pair stands once. It is kept by waiter, so that the owners that one transaction waits
/// for are found without a look at the others' waits.
#[derive(Drop)]
pub struct Edges {
    pairs: BTreeSet<(TxnId, TxnId)>,
}

impl Model for Edges {
    ghost use Rattle.std.specs.Prelude.{List, ◌<◌, ◌^◌};
    ghost use Rattle.std.specs.List.{All};
    ghost use Rattle.je_order.specs.declared.txn_id.TxnId.{TxnId};

    ghost Value = { List (TxnId × TxnId) };

    ghost view = { λ a. a.pairs.keys };

    ghost invariant = { λ a. All (λ e. e.1.0 < 2 ^ 64) a.pairs.keys };
}

impl Edges {
    /// No edges. It takes no memory.
    pub fn new(alloc: Global) -> Edges
        ensures { result ≡ [] }
    {
        Edges {
            pairs: BTreeSet::new(alloc),
        }
    }

    /// Puts the edge from a waiter to the one that it waits for. Running out of memory changes
    /// nothing.
    pub fn insert(&mut self, waiter: TxnId, owner: TxnId) -> Result<(), AllocError>
        ensures ok { OnOk result ((x y : _) → is_edge self.new x y ≡ (is_pair x y (waiter, owner) || is_edge self.old x y)) }
        ensures err { OnErr result (self.new ≡ self.old) }
    {
        self.pairs.insert((waiter, owner))?;
        Ok(())
    }

    /// Whether the first waits for the second. It takes no memory.
    pub fn contains(&self, waiter: TxnId, owner: TxnId) -> bool
        ensures { result ≡ is_edge self.now waiter owner }
    {
        self.pairs.contains(&(waiter, owner))
    }

    /// Takes out the edges that lead from a waiter. It takes no memory.
    pub fn remove(&mut self, waiter: TxnId)
        ensures { self.new ≡ edges_without waiter self.old }
    {
        retain_others(&mut self.pairs, waiter);
    }

    /// The edges that lead from a waiter, the greatest owner first.
    pub fn from(&self, alloc: Global, waiter: TxnId) -> Result<Vec<(TxnId, TxnId)>, AllocError>
        ensures found { IfOk result (λ found. found.items ≡ reverse (filter (is_from waiter) self.now)) }
        ensures rising { IfOk result (λ found. AreRising (filter (is_from waiter) self.now)) }
    {
        let mut found = rows_from(&self.pairs, alloc, waiter)?;
        found.reverse();
        Ok(found)
    }
}

// Keeps the pairs of the other waiters.
fn retain_others(pairs: &mut BTreeSet<(TxnId, TxnId)>, waiter: TxnId)
    ensures { pairs.new.keys ≡ edges_without waiter pairs.old.keys }
{
    pairs.retain(|pair| waiter != pair.0);
}

// The pairs of one waiter, the least owner first.
fn rows_from(
    pairs: &BTreeSet<(TxnId, TxnId)>,
    alloc: Global,
    waiter: TxnId,
) -> Result<Vec<(TxnId, TxnId)>, AllocError>
    requires { All (λ e. e.1.0 < 2 ^ 64) pairs.now.keys }
    ensures found { IfOk result (λ found. found.items ≡ filter (is_from waiter) pairs.now.keys) }
    ensures rising { IfOk result (λ found. AreRising (filter (is_from waiter) pairs.now.keys)) }
{
    let first = (waiter, TxnId(0));
    let last = (waiter, TxnId(u64::MAX));
    pairs.range(first..=last).copied().collect(alloc)
}
