// Ending the victims that are transactions of one call.
ghost use Rattle.std.specs.Prelude.{◌≡◌, ◌&&◌, not, find, filter, if◌then◌else◌};
ghost use Rattle.std.specs.Option.{option_copied};
ghost use Rattle.je_answers.specs.Standing.{Standing};
ghost use Rattle.je_answers.specs.After.{is_victim as is_told, without_session, ended, all_ended, autos_in};
ghost use Rattle.je_answers.specs.declared.active.Active.{Active as Begun};
ghost use Rattle.active_txns.specs.Marks.{HaveOwnSessions};
ghost use Rattle.sessions.specs.AtStanding.{AreSessionsAt};
ghost use Rattle.sessions.specs.Waiting.{is_auto_victim, first_auto_in, all_back};
ghost use Rattle.txn_locks.specs.Taking.{state_of, when_answered};

use crate::Sessions;
use je_answers::{Active, Wait};
use je_order::TxnId;
use store_model::Victim;
use txn_locks::CallLocks;

// Whether a session's call is a victim.
fn is_victim(victims: &[Victim], session: u8) -> bool
    ensures { result ≡ is_told session victims.now }
{
    victims.iter().any(|victim| victim.session == session)
}

// Whether a transaction is one of a call that is a victim.
fn ends(victims: &[Victim], active: &Active) -> bool
    ensures { result ≡ is_auto_victim victims.now active.now }
{
    active.is_auto && is_victim(victims, active.session)
}

// The first of those that end.
fn first_of<'a>(actives: &'a [Active], victims: &[Victim]) -> Option<&'a Active>
    ensures { option_copied result ≡ find (is_auto_victim victims.now) actives.now }
{
    actives.iter().find(|active| ends(victims, active))
}

fn first_auto(actives: &[Active], victims: &[Victim]) -> Option<(u8, TxnId)>
    ensures { result ≡ first_auto_in victims.now actives.now }
{
    match first_of(actives, victims) {
        None => None,
        Some(active) => Some((active.session, active.txn)),
    }
}

// Takes out the waits of the victims. It takes no memory.
pub(crate) fn leave_victims_out(waiting: &mut Vec<Wait>, victims: &[Victim])
    ensures { waiting.new.items ≡ filter (λ w. not (is_told w.session victims.now)) waiting.old.items }
{
    waiting.retain(|wait| !is_victim(victims, wait.session));
}

// Gives back what a victim's level does not keep. It takes no memory.
fn give_back_of(locks: &mut CallLocks, active: &Active, victims: &[Victim])
    ensures { state_of locks.new.locks ≡ (if is_told active.now.session victims.now then when_answered active.now.level active.now.txn (state_of locks.old.locks) else state_of locks.old.locks) }
{
    if is_victim(victims, active.session) {
        locks.answered_waiting(active.txn, active.level);
    }
}

// Gives back what the levels of the victims do not keep. It takes no memory.
pub(crate) fn give_back_each(locks: &mut CallLocks, actives: &[Active], victims: &[Victim])
    ensures { state_of locks.new.locks ≡ all_back (filter (λ a. is_told a.session victims.now) actives.now) (state_of locks.old.locks) }
{
    for active in actives {
        give_back_of(locks, active, victims);
    }
}

// Ends a session's transaction, and closes its cursors. It takes no memory.
pub(crate) fn end_one(sessions: &mut Sessions, session: u8, txn: TxnId)
    ensures stands { (st : Standing) (a : Begun) → a.session ≡ session → a.txn ≡ txn → AreSessionsAt sessions.old st → AreSessionsAt sessions.new (ended a st) }
    ensures actives { sessions.new.txns.actives.items ≡ without_session session sessions.old.txns.actives.items }
{
    sessions.txns.end(session, txn);
    sessions.cursors.close_all(session);
    sessions.locks.locks.release_all(txn);
}

// Ends each victim that is the transaction of one call, in the order of their numbers. It takes no memory.
pub(crate) fn end_autos(sessions: &mut Sessions, victims: &[Victim])
    ensures stands { (st : Standing) → HaveOwnSessions st.actives → AreSessionsAt sessions.old st → AreSessionsAt sessions.new (all_ended (autos_in victims.now st.actives) st) }
{
    while let Some((session, txn)) = first_auto(sessions.txns.actives(), victims) {
        end_one(sessions, session, txn);
    }
}
