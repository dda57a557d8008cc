// Telling the victims of a wait.
ghost use Rattle.std.specs.Prelude.{ℕ, suc, ◌≡◌, ◌≤◌, ◌<◌, ◌+◌, ◌==◌, ◌++◌, ◌∷◌, [], None, Some, map, length, option_map, find, vec_capacity};
ghost use Rattle.std.specs.Option.{option_copied};
ghost use Rattle.std.specs.List.{AllByRecursion, slice_get};
ghost use Rattle.je_order.specs.declared.txn_id.TxnId.{TxnId};
ghost use Rattle.je_order.specs.Transactions.{is_same_txn};
ghost use Rattle.store_model.specs.declared.need.Need.{Need as Needed};
ghost use Rattle.je_answers.specs.Events.{told_in, cycle_of, waiting_answer};
ghost use Rattle.je_answers.specs.After.{marked, is_victim};
ghost use Rattle.active_txns.specs.Marks.{HaveOwnSessions};
ghost use Rattle.sessions.specs.Names.{named_by, target_by};
ghost use Rattle.sessions.specs.Spares.{HasSpare, IsShort};

use crate::NamedDb;
use crate::spare::copied;
use active_txns::ActiveTxns;
use je_answers::Wait;
use je_order::{List, TxnId, Word};
use store_model::{Answer, Kind, LockTarget, Need, Victim};

// The cycle of a transaction, if it is a victim.
fn cycle_in(victims: &[(TxnId, List<TxnId>)], txn: TxnId) -> Option<&List<TxnId>>
    ensures { option_copied result ≡ cycle_of txn victims.now }
{
    match victims.iter().find(|victim| txn.0 == victim.0.0) {
        None => None,
        Some(victim) => Some(&victim.1),
    }
}

// The name and the kind of a database: those of one of the others, or the call's own.
fn known_as(others: Vec<NamedDb>, number: u32, db: Word, kind: Kind) -> (Word, Kind)
    ensures { result ≡ named_by others.items number (db, kind) }
{
    for other in others {
        if other.number == number {
            let NamedDb { name, kind, .. } = other;
            return (name, kind);
        }
    }
    (db, kind)
}

// What a call waits for.
pub(crate) fn target_of(
    db: Word,
    kind: Kind,
    others: List<NamedDb>,
    needs: Vec<Need>,
    at: usize,
) -> LockTarget
    requires { at < length needs.items }
    ensures { (need : Needed) → slice_get needs.items at ≡ Some need → result ≡ target_by others (db, kind) need }
{
    let mut needs = needs;
    let need = needs.swap_remove(at);
    let (db, kind) = known_as(others.into_vec(), need.db, db, kind);
    LockTarget {
        db,
        kind,
        at: need.at,
    }
}

// The answer of a call that was made to wait.
pub(crate) fn answer_of(
    buffers: &mut Vec<Vec<TxnId>>,
    txn: TxnId,
    target: LockTarget,
    owner: TxnId,
    victims: &[(TxnId, List<TxnId>)],
) -> Answer
    requires { (size : ℕ) × HasSpare size 1 buffers.old.items × AllByRecursion (IsShort size) victims.now }
    ensures answer { result ≡ waiting_answer (cycle_of txn victims.now) target owner }
    ensures left { (size count : ℕ) → HasSpare size (suc count) buffers.old.items → HasSpare size count buffers.new.items }
{
    match cycle_in(victims, txn) {
        None => Answer::Waiting { at: target, owner },
        Some(cycle) => Answer::Deadlock {
            cycle: copied(buffers, cycle.as_slice()),
        },
    }
}

// The session and the line of a transaction's waiting call.
fn wait_in(waiting: &[Wait], txn: TxnId) -> Option<&Wait>
    ensures { option_copied result ≡ find (λ w. is_same_txn txn w.txn) waiting.now }
{
    waiting.iter().find(|wait| txn.0 == wait.txn.0)
}

// A victim as it is told.
fn victim_of(waiting: &[Wait], txn: TxnId, cycle: List<TxnId>) -> Victim
    ensures { result ≡ told_in waiting.now (txn, cycle) }
{
    match wait_in(waiting, txn) {
        None => Victim {
            session: 0,
            line: 0,
            cycle,
        },
        Some(wait) => Victim {
            session: wait.session,
            line: wait.line,
            cycle,
        },
    }
}

// Tells and marks one victim. It takes no memory.
fn tell_one(
    txns: &mut ActiveTxns,
    buffers: &mut Vec<Vec<TxnId>>,
    told: &mut Vec<Victim>,
    waiting: &[Wait],
    victim: (TxnId, List<TxnId>),
)
    requires own { HaveOwnSessions txns.old.actives.items }
    requires spare { HasSpare (length victim.1) 1 buffers.old.items }
    requires room { length told.old.items < vec_capacity told.old }
    ensures told { told.new.items ≡ told.old.items ++ told_in waiting.now victim ∷ [] }
    ensures room { vec_capacity told.old ≤ vec_capacity told.new }
    ensures actives { txns.new.actives.items ≡ marked (told_in waiting.now victim ∷ []) txns.old.actives.items }
    ensures own { txns.new.own.entries ≡ txns.old.own.entries }
    ensures left { (size count : ℕ) → HasSpare size (suc count) buffers.old.items → HasSpare size count buffers.new.items }
{
    let (txn, cycle) = victim;
    let mark = copied(buffers, cycle.as_slice());
    let victim = victim_of(waiting, txn, cycle);
    txns.mark(victim.session, mark);
    told.push(victim).unwrap();
}

// Tells and marks each victim. It takes no memory.
pub(crate) fn tell_each(
    txns: &mut ActiveTxns,
    buffers: Vec<Vec<TxnId>>,
    told: Vec<Victim>,
    waiting: &[Wait],
    victims: Vec<(TxnId, List<TxnId>)>,
) -> Vec<Victim>
    requires own { HaveOwnSessions txns.old.actives.items }
    requires none { told.items ≡ [] }
    requires spare { (size : ℕ) × HasSpare size (length victims.items) buffers.items × AllByRecursion (IsShort size) victims.items }
    requires room { length victims.items ≤ vec_capacity told }
    ensures told { result.items ≡ map (told_in waiting.now) victims.items }
    ensures actives { txns.new.actives.items ≡ marked (map (told_in waiting.now) victims.items) txns.old.actives.items }
    ensures own { txns.new.own.entries ≡ txns.old.own.entries }
{
    let mut buffers = buffers;
    let mut told = told;
    let mut victims = victims;
    while let Some(victim) = victims.pop() {
        tell_one(txns, &mut buffers, &mut told, waiting, victim);
    }
    told.reverse();
    told
}
