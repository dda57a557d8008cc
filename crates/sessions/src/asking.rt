// Asking for what a call needs.
ghost use Rattle.std.specs.Prelude.{◌≡◌, None, Some, IfOk, OnErr};
ghost use Rattle.lock_table.specs.Table.{pending_at};
ghost use Rattle.store_model.specs.declared.need.Need.{Need as Needed};
ghost use Rattle.je_answers.specs.declared.active.Active.{Active};
ghost use Rattle.je_answers.specs.Standing.{active_of};
ghost use Rattle.je_answers.specs.Locking.{first_blocked};
ghost use Rattle.txn_locks.specs.Taking.{state_of, IsMadeToWait};
ghost use Rattle.sessions.specs.Waiting.{IsAsker, HasAsked};

use crate::asker::Asker;
use crate::blocked::Blocked;
use active_txns::ActiveTxns;
use je_order::TxnId;
use std::alloc::{AllocError, Global};
use store_model::Need;
use txn_locks::{CallLocks, Locked};

// The transaction of a session, as it asks.
pub(crate) fn asker_of(txns: &ActiveTxns, session: u8) -> Asker
    requires { (a : Active) × (active_of session txns.now.actives.items ≡ Some a) }
    ensures { (a : Active) → active_of session txns.now.actives.items ≡ Some a → IsAsker result a }
{
    match txns.of_session(session) {
        None => unreachable!(),
        Some(active) => Asker {
            txn: active.txn,
            level: active.level,
            waits: active.waits,
        },
    }
}

// Asks without waiting: the owner in the way of the first need that is stopped, if one is.
pub(crate) fn ask(
    locks: &mut CallLocks,
    alloc: Global,
    asker: &Asker,
    needs: &[Need],
) -> Result<Option<TxnId>, AllocError>
    requires { pending_at asker.now.txn locks.old.locks ≡ None }
    ensures asked { IfOk result (λ owner. HasAsked asker.now needs.now owner locks.old locks.new) }
    ensures err { OnErr result (state_of locks.new.locks ≡ state_of locks.old.locks) }
{
    match locks.take(alloc, asker.txn, asker.level, needs, false)? {
        Locked::Ready => Ok(None),
        Locked::NotAvailable { owner } => Ok(Some(owner)),
        Locked::Waiting { .. } => unreachable!(),
        Locked::Victims { .. } => unreachable!(),
    }
}

// Asks where a need is stopped, and waits for it.
pub(crate) fn ask_waiting(
    locks: &mut CallLocks,
    alloc: Global,
    asker: &Asker,
    needs: &[Need],
) -> Result<Blocked, AllocError>
    requires none { pending_at asker.now.txn locks.old.locks ≡ None }
    requires stopped { (n : Needed) × (first_blocked asker.now.txn needs.now (state_of locks.old.locks).at ≡ Some n) }
    ensures waits { IfOk result (λ b. IsMadeToWait asker.now.txn needs.now b.at b.owner b.victims.items (state_of locks.old.locks) (state_of locks.new.locks)) }
    ensures err { OnErr result (state_of locks.new.locks ≡ state_of locks.old.locks) }
{
    match locks.take(alloc, asker.txn, asker.level, needs, true)? {
        Locked::Ready => unreachable!(),
        Locked::NotAvailable { .. } => unreachable!(),
        Locked::Waiting { at, owner } => Ok(Blocked {
            at,
            owner,
            victims: Vec::new(alloc),
        }),
        Locked::Victims { at, owner, victims } => Ok(Blocked {
            at,
            owner,
            victims: victims.into_vec(),
        }),
    }
}
