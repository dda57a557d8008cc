// Taking what a call needs.
ghost use Rattle.std.specs.Prelude.{◌≡◌, ◌<◌, ◌≤◌, ◌+◌, ◌++◌, ◌∷◌, [], None, Some, false, map, filter, not, length, vec_len, vec_capacity, IfOk, OnErr};
ghost use Rattle.std.specs.List.{AllByRecursion, slice_get};
ghost use Rattle.store_model.specs.declared.isolation.Isolation.TheVariants.{ReadCommitted};
ghost use Rattle.store_model.specs.declared.answer.Answer.TheVariants.{NotAvailable as Refused};
ghost use Rattle.je_answers.specs.Events.{told_in, cycle_of, waiting_answer};
ghost use Rattle.je_answers.specs.After.{marked, is_victim};
ghost use Rattle.active_txns.specs.Marks.{HaveOwnSessions};
ghost use Rattle.txn_locks.specs.Undoing.{AreReadsAmong};
ghost use Rattle.je_order.specs.declared.txn_id.TxnId.{TxnId};
ghost use Rattle.lock_table.specs.Table.{pending_at};
ghost use Rattle.store_model.specs.declared.need.Need.{Need as Needed};
ghost use Rattle.je_answers.specs.declared.active.Active.{Active};
ghost use Rattle.je_answers.specs.Standing.{Standing, active_of};
ghost use Rattle.je_answers.specs.Views.{Target};
ghost use Rattle.je_answers.specs.Locking.{first_blocked};
ghost use Rattle.txn_locks.specs.Taking.{state_of, when_answered};
ghost use Rattle.standing_laws.specs.Right.{MayWait, HaveWaits};
ghost use Rattle.sessions.specs.AtStanding.{AreSessionsAt};
ghost use Rattle.sessions.specs.Taking.{MayAsk, HasTaken, HasStopped, IfReady, IfStopped, AreNeedsOf};
ghost use Rattle.sessions.specs.Names.{target_by};
ghost use Rattle.sessions.specs.Spares.{IsShort};
ghost use Rattle.sessions.specs.Waiting.{HasRoomFor, HasTold, HasWaited};
ghost use Rattle.sessions.specs.declared.taken.Taken.TheVariants.{Stopped};

use crate::asker::Asker;
use crate::asking::{ask, ask_waiting, asker_of};
use crate::blocked::Blocked;
use crate::copying::copy_call;
use crate::ending::{end_autos, give_back_each, leave_victims_out};
use crate::spare::buffers_of;
use crate::stop_room::StopRoom;
use crate::telling::{answer_of, target_of, tell_each};
use crate::{NamedDb, Sessions, Taken};
use je_answers::Wait;
use je_order::{List, TxnId, Word, copy_of};
use std::alloc::{AllocError, Global};
use store_model::{Answer, Call, Kind, Need, Victim};

// Room for what a stop tells, where so many calls wait with this one.
fn room_for(
    alloc: Global,
    calls: usize,
    txn: TxnId,
    session: u8,
    line: u32,
    call: &Call,
    db: &Word,
    others: &List<NamedDb>,
) -> Result<StopRoom, AllocError>
    requires { MayWait call.now }
    ensures wait { IfOk result (λ room. room.wait ≡ record { session = session; line = line; call = call.now; txn = txn }) }
    ensures db { IfOk result (λ room. room.db ≡ db.now) }
    ensures others { IfOk result (λ room. room.others ≡ others.now) }
    ensures room { IfOk result (HasRoomFor calls) }
{
    let db = copy_of(db)?;
    let others = copy_of(others)?;
    let told = Vec::with_capacity(alloc, calls)?;
    let buffers = buffers_of(alloc, calls)?;
    let call = copy_call(call)?;
    Ok(StopRoom {
        wait: Wait {
            session,
            line,
            call,
            txn,
        },
        db,
        others,
        told,
        buffers,
    })
}

// Tells the victims of a wait, and marks them; their waits are taken out. It takes no memory.
fn tell(
    sessions: &mut Sessions,
    room: StopRoom,
    kind: Kind,
    needs: Vec<Need>,
    blocked: Blocked,
) -> (Answer, Vec<Victim>)
    requires own { HaveOwnSessions sessions.old.txns.actives.items }
    requires place { vec_len sessions.old.waiting < vec_capacity sessions.old.waiting }
    requires room { HasRoomFor (length sessions.old.waiting.items + 1) room }
    requires at { blocked.at < length needs.items }
    requires few { length blocked.victims.items ≤ length sessions.old.waiting.items + 1 }
    requires short { AllByRecursion (IsShort (length sessions.old.waiting.items + 1)) blocked.victims.items }
    ensures answer { (need : Needed) → slice_get needs.items blocked.at ≡ Some need → result.0 ≡ waiting_answer (cycle_of room.wait.txn blocked.victims.items) (target_by room.others (room.db, kind) need) blocked.owner }
    ensures victims { result.1.items ≡ map (told_in (sessions.old.waiting.items ++ room.wait ∷ [])) blocked.victims.items }
    ensures actives { sessions.new.txns.actives.items ≡ marked result.1.items sessions.old.txns.actives.items }
    ensures own { sessions.new.txns.own.entries ≡ sessions.old.txns.own.entries }
    ensures waiting { sessions.new.waiting.items ≡ filter (λ w. not (is_victim w.session result.1.items)) (sessions.old.waiting.items ++ room.wait ∷ []) }
    ensures locks { sessions.new.locks ≡ sessions.old.locks }
    ensures cursors { sessions.new.cursors ≡ sessions.old.cursors }
{
    let StopRoom {
        wait,
        db,
        others,
        told,
        buffers,
    } = room;
    let Blocked { at, owner, victims } = blocked;
    let mut buffers = buffers;
    let txn = wait.txn;
    sessions.waiting.push(wait).unwrap();
    let target = target_of(db, kind, others, needs, at);
    let answer = answer_of(&mut buffers, txn, target, owner, victims.as_slice());
    let victims = tell_each(
        &mut sessions.txns,
        buffers,
        told,
        sessions.waiting.as_slice(),
        victims,
    );
    leave_victims_out(&mut sessions.waiting, victims.as_slice());
    (answer, victims)
}

// A call is stopped that now waits: the victims are told and give back what their levels do not keep, and
// those of one call end. It takes no memory.
fn stop(
    sessions: &mut Sessions,
    room: StopRoom,
    kind: Kind,
    needs: Vec<Need>,
    blocked: Blocked,
) -> Taken
    requires own { HaveOwnSessions sessions.old.txns.actives.items }
    requires place { vec_len sessions.old.waiting < vec_capacity sessions.old.waiting }
    requires room { HasRoomFor (length sessions.old.waiting.items + 1) room }
    requires at { blocked.at < length needs.items }
    requires few { length blocked.victims.items ≤ length sessions.old.waiting.items + 1 }
    requires short { AllByRecursion (IsShort (length sessions.old.waiting.items + 1)) blocked.victims.items }
    ensures told { HasTold result room kind needs.items blocked sessions.old sessions.new }
{
    let (answer, victims) = tell(sessions, room, kind, needs, blocked);
    give_back_each(
        &mut sessions.locks,
        sessions.txns.actives(),
        victims.as_slice(),
    );
    end_autos(sessions, victims.as_slice());
    Taken::Stopped {
        answer,
        victims: List::from_vec(victims),
    }
}

// Makes a call wait for a need that is stopped. The only error is out of memory, and nothing is changed by it.
fn wait_for(
    sessions: &mut Sessions,
    alloc: Global,
    asker: &Asker,
    session: u8,
    line: u32,
    call: &Call,
    db: &Word,
    kind: Kind,
    others: &List<NamedDb>,
    needs: Vec<Need>,
) -> Result<Taken, AllocError>
    requires call { MayWait call.now }
    requires none { pending_at asker.now.txn sessions.old.locks.locks ≡ None }
    requires stopped { (n : Needed) × (first_blocked asker.now.txn needs.items (state_of sessions.old.locks.locks).at ≡ Some n) }
    requires waits { HaveWaits sessions.old.txns.actives.items sessions.old.waiting.items (state_of sessions.old.locks.locks).pending }
    ensures told { IfOk result (λ taken. HasWaited taken asker.now session line call.now db.now kind others.now needs.items sessions.old sessions.new) }
    ensures err { OnErr result ((st : Standing) → AreSessionsAt sessions.old st → AreSessionsAt sessions.new st) }
{
    let calls = sessions.waiting.len() + 1;
    let room = room_for(alloc, calls, asker.txn, session, line, call, db, others)?;
    sessions.waiting.reserve(1)?;
    let blocked = ask_waiting(&mut sessions.locks, alloc, asker, needs.as_slice())?;
    Ok(stop(sessions, room, kind, needs, blocked))
}

// A call that is not to wait is answered that a lock is not available.
fn refused(
    sessions: &mut Sessions,
    alloc: Global,
    asker: &Asker,
    owner: TxnId,
    resumed: bool,
) -> Taken
    requires none { pending_at asker.now.txn sessions.old.locks.locks ≡ None }
    requires reads { asker.now.level ≡ ReadCommitted → resumed ≡ false → AreReadsAmong asker.now.txn sessions.old.locks.got.items (state_of sessions.old.locks.locks).at }
    ensures taken { result ≡ Stopped (Refused owner) [] }
    ensures locks { state_of sessions.new.locks.locks ≡ when_answered asker.now.level asker.now.txn (state_of sessions.old.locks.locks) }
    ensures txns { sessions.new.txns ≡ sessions.old.txns }
    ensures waiting { sessions.new.waiting.items ≡ sessions.old.waiting.items }
    ensures cursors { sessions.new.cursors ≡ sessions.old.cursors }
{
    sessions.locks.answered(asker.txn, asker.level, resumed);
    Taken::Stopped {
        answer: Answer::NotAvailable { owner },
        victims: List::new(alloc),
    }
}

// Takes what a call needs, or stops it.
pub(crate) fn take_for(
    sessions: &mut Sessions,
    alloc: Global,
    session: u8,
    line: u32,
    call: &Call,
    db: &Word,
    kind: Kind,
    others: &List<NamedDb>,
    needs: Vec<Need>,
    resumed: bool,
) -> Result<Taken, AllocError>
    requires may { MayAsk sessions.old session resumed }
    requires call { MayWait call.now }
    ensures ready { IfOk result (λ taken. IfReady taken ((st : Standing) (a : Active) → st.fault ≡ None → active_of session st.actives ≡ Some a → AreSessionsAt sessions.old st → HasTaken sessions.new resumed a needs.items st)) }
    ensures stopped { IfOk result (λ taken. IfStopped taken (λ answer victims. (st : Standing) (a : Active) (g : Target) → st.fault ≡ None → AreNeedsOf st session call.now db.now kind others.now needs.items a g → AreSessionsAt sessions.old st → HasStopped sessions.new st a line call.now g answer victims)) }
    ensures err { OnErr result ((st : Standing) → AreSessionsAt sessions.old st → AreSessionsAt sessions.new st) }
{
    let asker = asker_of(&sessions.txns, session);
    let owner = ask(&mut sessions.locks, alloc, &asker, needs.as_slice())?;
    let Some(owner) = owner else {
        return Ok(Taken::Ready);
    };
    if !asker.waits {
        return Ok(refused(sessions, alloc, &asker, owner, resumed));
    }
    sessions.locks.give_up(asker.txn);
    wait_for(
        sessions, alloc, &asker, session, line, call, db, kind, others, needs,
    )
}
