// What refuses a call before anything is asked of a database.
ghost use Rattle.std.specs.Prelude.{◌≡◌, None, Some, Option, IfOk};
ghost use Rattle.std.specs.Option.{is_some};
ghost use Rattle.store_model.specs.Refusals.{or_refusal};
ghost use Rattle.store_model.specs.declared.answer.Answer.TheVariants.{SessionWaits};
ghost use Rattle.lock_table.specs.Table.{pending_at};
ghost use Rattle.je_answers.specs.Standing.{Standing, active_of};
ghost use Rattle.je_answers.specs.Refusals.{early_refusal as refusal_of, victim_refusal as victim_refused, txn_refusal};
ghost use Rattle.sessions.specs.AtStanding.{AreSessionsAt, waiting_refusal};

use crate::Sessions;
use je_answers::Active;
use je_order::{List, TxnId, copy_of};
use lock_mgr::LockMgr;
use std::alloc::AllocError;
use store_model::{Answer, Call, Fault};

// Whether a transaction was told to wait, and has neither asked nor ended since.
pub(crate) fn was_told(locks: &LockMgr, txn: TxnId) -> bool
    ensures { result ≡ is_some (pending_at txn locks.now) }
{
    locks.waits_now(txn) || locks.is_granted(txn)
}

// A call outside a transaction.
fn outside_refusal(call: &Call) -> Option<Answer>
    ensures { result ≡ txn_refusal call.now None }
{
    match call {
        Call::Commit | Call::Abort | Call::Open { .. } => Some(Answer::NoTxn),
        _ => None,
    }
}

// A call inside a transaction.
fn inside_refusal(call: &Call, active: &Active) -> Option<Answer>
    ensures { result ≡ txn_refusal call.now (Some active.now) }
{
    match call {
        Call::Begin { .. }
        | Call::Create { .. }
        | Call::CreateIndex { .. }
        | Call::Remove { .. }
        | Call::Rename { .. }
        | Call::Truncate { .. } => Some(Answer::InTxn { txn: active.txn }),
        _ => None,
    }
}

// A call of a transaction that was the victim of a cycle.
fn victim_refusal(call: &Call, cycle: &List<TxnId>) -> Result<Option<Answer>, AllocError>
    ensures { IfOk result (λ refusal. refusal ≡ victim_refused call.now (Some cycle.now)) }
{
    match call {
        Call::Abort => Ok(None),
        _ => Ok(Some(Answer::MustAbort {
            cycle: copy_of(cycle)?,
        })),
    }
}

// A call of a session that has a transaction.
fn active_refusal(
    locks: &LockMgr,
    active: &Active,
    call: &Call,
) -> Result<Option<Answer>, AllocError>
    ensures { IfOk result (λ refusal. refusal ≡ waiting_refusal (pending_at active.now.txn locks.now) call.now active.now) }
{
    if was_told(locks, active.txn) {
        return Ok(Some(Answer::SessionWaits));
    }
    match &active.deadlock {
        None => Ok(inside_refusal(call, active)),
        Some(cycle) => {
            let refused = victim_refusal(call, cycle)?;
            match refused {
                Some(refusal) => Ok(Some(refusal)),
                None => Ok(inside_refusal(call, active)),
            }
        }
    }
}

// What refuses a call first.
pub(crate) fn early_refusal_in(
    sessions: &Sessions,
    fault: Option<Fault>,
    session: u8,
    call: &Call,
) -> Result<Option<Answer>, AllocError>
    ensures { IfOk result (λ refusal. (st : Standing) → AreSessionsAt sessions.now st → fault ≡ st.fault → refusal ≡ refusal_of st session call.now) }
{
    if let Some(first) = fault {
        return Ok(Some(Answer::Invalid { first }));
    }
    match sessions.txns.of_session(session) {
        None => Ok(outside_refusal(call)),
        Some(active) => active_refusal(&sessions.locks.locks, active, call),
    }
}
