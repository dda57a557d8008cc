// The calls that wait.
ghost use Rattle.std.specs.Prelude.{◌≡◌, ◌||◌, ◌==◌, None, Some, Bool, option_map, position, find, if◌then◌else◌};
ghost use Rattle.std.specs.Option.{is_some, option_copied};
ghost use Rattle.je_order.specs.declared.txn_id.TxnId.{TxnId};
ghost use Rattle.lock_table.specs.Table.{locks_at, pending_at, was_granted};
ghost use Rattle.lock_table.specs.declared.record_id.RecordId.{RecordId};
ghost use Rattle.je_order.specs.Transactions.{is_same_txn};
ghost use Rattle.je_answers.specs.Standing.{Standing, wait_of, without_wait};
ghost use Rattle.je_answers.specs.Journal.{first_ready};
ghost use Rattle.sessions.specs.AtStanding.{AreSessionsAt, AreForgotten};

use crate::Sessions;
use je_answers::Wait;
use lock_mgr::LockMgr;

// The waiting call of a session.
pub(crate) fn wait_at(waiting: &[Wait], session: u8) -> Option<&Wait>
    ensures { option_copied result ≡ wait_of session waiting.now }
{
    waiting.iter().find(|wait| wait.session == session)
}

// Where the waiting call of a session stands.
fn place_of(waiting: &[Wait], session: u8) -> Option<usize>
    ensures { result ≡ position (λ w. w.session == session) waiting.now }
{
    waiting.iter().position(|wait| wait.session == session)
}

// Takes out each waiting call of a session. It takes no memory.
pub(crate) fn leave_out(waiting: &mut Vec<Wait>, session: u8)
    ensures { waiting.new.items ≡ without_wait session waiting.old.items }
{
    waiting.retain(|wait| wait.session != session);
}

// Takes out the waiting call of a session. It takes no memory.
pub(crate) fn taken_out(waiting: &mut Vec<Wait>, session: u8) -> Option<Wait>
    ensures wait { result ≡ wait_of session waiting.old.items }
    ensures rest { waiting.new.items ≡ without_wait session waiting.old.items }
{
    match place_of(waiting.as_slice(), session) {
        None => None,
        Some(at) => {
            let wait = waiting.remove(at);
            leave_out(waiting, session);
            Some(wait)
        }
    }
}

// Forgets the wait of a call, if it was granted. It takes no memory.
pub(crate) fn forget_for(locks: &mut LockMgr, wait: &Option<Wait>)
    ensures { AreForgotten wait.now locks.old locks.new }
{
    if let Some(wait) = wait {
        locks.forget(wait.txn);
    }
}

// The first waiting call that may go on.
fn first_ready_in(sessions: &Sessions, has_fault: bool) -> Option<&Wait>
    ensures { option_copied result ≡ find (λ w. has_fault || was_granted w.txn sessions.now.locks.locks) sessions.now.waiting.items }
{
    sessions.waiting.iter().find(|wait| has_fault || sessions.locks.locks.is_granted(wait.txn))
}

// The session and the line of the first waiting call that may go on.
pub(crate) fn next_ready_in(sessions: &Sessions, has_fault: bool) -> Option<(u8, u32)>
    ensures { (st : Standing) → AreSessionsAt sessions.now st → has_fault ≡ is_some st.fault → result ≡ option_map (λ w. (w.session, w.line)) (first_ready st) }
{
    match first_ready_in(sessions, has_fault) {
        None => None,
        Some(wait) => Some((wait.session, wait.line)),
    }
}
