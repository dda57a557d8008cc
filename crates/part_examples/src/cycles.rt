// Cycles in who waits for whom.
use crate::rows::first_wrong;
use Step::{Contains, Finds, Insert};
use je_order::TxnId;
use std::alloc::{AllocError, Global};
use waits_for::{Edges, find_cycle};

// What is done to who waits for whom, or asked of it.
#[derive(Clone, Copy)]
enum Step {
    Insert(u64, u64),
    Contains(u64, u64, bool),
    // the cycle that is found through a transaction; none where it has no number
    Finds(u64, &'static [TxnId]),
}

// Whether the cycle that is found through a transaction is this one; where it has no number, whether
// none is found.
fn has_cycle(alloc: Global, edges: &Edges, txn: u64, want: &[TxnId]) -> Result<bool, AllocError> {
    match find_cycle(alloc, edges, TxnId(txn))? {
        Some(cycle) => {
            let same = cycle.as_slice() == want;
            drop(cycle);
            Ok(same)
        }
        None => Ok(want.is_empty()),
    }
}

// Whether the step comes as it says.
fn comes(alloc: Global, edges: &mut Edges, step: Step) -> Result<bool, AllocError> {
    match step {
        Insert(waiter, owner) => {
            edges.insert(TxnId(waiter), TxnId(owner))?;
            Ok(true)
        }
        Contains(waiter, owner, want) => { Ok(edges.contains(TxnId(waiter), TxnId(owner)) == want) }
        Finds(txn, want) => has_cycle(alloc, edges, txn, want),
    }
}

// The first step that does not come so where nobody waits yet.
fn wrong_step(alloc: Global, steps: &[Step]) -> Result<Option<usize>, AllocError> {
    let mut edges = Edges::new(alloc);
    let wrong = first_wrong(steps, |step| comes(alloc, &mut edges, *step));
    drop(edges);
    wrong
}

// Two that wait for each other, and one that waits for one of them.
static TWO: [Step; 8] = [
    Insert(2, 3),
    Insert(1, 2),
    Contains(2, 3, true),
    Contains(3, 2, false),
    Finds(2, &[]),
    Insert(3, 2),
    Finds(3, &[TxnId(3), TxnId(2)]),
    Finds(1, &[]),
];

// Depth first, lesser numbers first.
static WAYS: [Step; 6] = [
    Insert(1, 4),
    Insert(1, 2),
    Insert(2, 3),
    Insert(3, 1),
    Insert(4, 1),
    Finds(1, &[TxnId(1), TxnId(2), TxnId(3)]),
];

#[test]
fn finds_the_cycle_of_the_lesser_way(rt: HostRuntime) {
    assert_eq!(rt; wrong_step(rt.alloc(), &TWO), Ok(None));
    assert_eq!(rt; wrong_step(rt.alloc(), &WAYS), Ok(None));
}
