// What a call on a database's records comes to.
ghost use Rattle.std.specs.Prelude.{◌≡◌, [], Some, true, false, map, length, IfOk};
ghost use Rattle.std.specs.Option.{option_copied};
ghost use Rattle.store_model.specs.declared.answer.Answer.TheVariants.{Count as CountOf};
ghost use Rattle.store_model.specs.declared.record_change.RecordChange.{RecordChange as OneChange};
ghost use Rattle.store_model.specs.declared.record_change.RecordChange.TheVariants.{Unset};
ghost use Rattle.store_model.specs.Store.{Pair, name_of};
ghost use Rattle.store_model.specs.Reads.{at_name};
ghost use Rattle.store_model.specs.Records.{motion_needs, place_needs, empty_if, early_of, first_of_key, exactly, all_of_key, look_of_put, look_of_motion, look_at_key, look_at_place, look_of, found, tested_for, went, tested, put_unless, deleted, conclude, evaluation};
ghost use Rattle.cursor_je.specs.Looks.{pair_in, planned_in, seen_by};

use crate::concluding::{found, put_at_place, put_unless, tested, tested_for, went};
use crate::looking::{exactly, first_of_key, look_at_place, look_of_motion};
use crate::name_ref::{name_ref, pair_name};
use crate::planned::{Planned, answers, copy_of_place, says};
use crate::record_ref::record_name;
use crate::taking::{take, take_key, take_put};
use crate::{RecordRef, View};
use je_order::{List, Name, Octets};
use std::alloc::{AllocError, Global};
use store_model::{Answer, Call, Kind, Motion, PutMode, RecordChange};

fn motion_needs(motion: &Motion) -> (bool, bool)
    ensures { result ≡ motion_needs motion.now }
{
    match motion {
        Motion::NextDup => (true, false),
        Motion::PrevDup => (true, false),
        Motion::Current => (true, true),
        _ => (false, false),
    }
}

// Whether a call is made where its cursor stands, and whether the record has to be there still.
fn place_needs(call: &Call) -> (bool, bool)
    ensures { result ≡ place_needs call.now }
{
    match call {
        Call::Count { .. } => (true, true),
        Call::Cur { motion, .. } => motion_needs(motion),
        Call::CPutCur { .. } => (true, true),
        Call::CDel { .. } => (true, true),
        _ => (false, false),
    }
}

// KeyEmpty where the record has to be there and is not.
fn empty_if<V: View>(
    alloc: Global,
    needed: bool,
    view: &V,
    n: &Name,
) -> Result<Option<Answer>, AllocError>
    ensures { IfOk result (λ early. early ≡ empty_if needed (at_name (V.kind_of view.now) n.now (V.pairs_of view.now))) }
{
    if !needed {
        return Ok(None);
    }
    match view.record(alloc, name_ref(n))? {
        None => Ok(Some(Answer::KeyEmpty)),
        Some(_) => Ok(None),
    }
}

/// NoPosition or KeyEmpty, which the cursor's place alone decides.
pub(crate) fn early_of<V: View>(
    alloc: Global,
    view: &V,
    call: &Call,
    at: Option<&Name>,
) -> Result<Option<Answer>, AllocError>
    ensures { IfOk result (λ early. early ≡ early_of (V.kind_of view.now) call.now (option_copied at.entry) (V.pairs_of view.now)) }
{
    let needs = place_needs(call);
    match at {
        None => {
            if needs.0 {
                Ok(Some(Answer::NoPosition))
            } else {
                Ok(None)
            }
        }
        Some(n) => empty_if(alloc, needs.1, view, n),
    }
}

fn unset_all(
    alloc: Global,
    kind: Kind,
    taken: &[RecordRef<'_>],
) -> Result<List<RecordChange>, AllocError>
    ensures { IfOk result (λ changes. changes ≡ map (λ (p : Pair). Unset (name_of kind p)) (map pair_in taken.now)) }
{
    let mut changes = Vec::new(alloc);
    'records: for found in taken {
        let at = record_name(kind, found).to_name(alloc)?;
        changes.push(RecordChange::Unset { at })?;
    }
    Ok(List::from_vec(changes))
}

// A delete takes out what it saw.
fn deleted(
    alloc: Global,
    kind: Kind,
    at: Option<&Name>,
    taken: &[RecordRef<'_>],
) -> Result<Planned, AllocError>
    ensures { IfOk result (λ p. planned_in p ≡ deleted kind (option_copied at.entry) (map pair_in taken.now)) }
{
    if taken.is_empty() {
        return says(alloc, Answer::NotFound, at);
    }
    let changes = unset_all(alloc, kind, taken)?;
    let place = copy_of_place(at)?;
    Ok(Planned {
        answer: Answer::Done,
        answered: true,
        changes,
        place,
    })
}

fn plan_get<V: View>(
    alloc: Global,
    view: &V,
    at: Option<&Name>,
    key: &Octets,
) -> Result<Planned, AllocError>
    ensures { IfOk result (λ p. planned_in p ≡ found (option_copied at.entry) (seen_by (V.kind_of view.now) (first_of_key (V.kind_of view.now) key.now) (V.pairs_of view.now))) }
{
    let taken = take(alloc, view, first_of_key(view.kind(), key.as_slice()))?;
    found(alloc, at, taken)
}

fn plan_get_both<V: View>(
    alloc: Global,
    view: &V,
    at: Option<&Name>,
    key: &Octets,
    value: &Octets,
) -> Result<Planned, AllocError>
    ensures { IfOk result (λ p. planned_in p ≡ found (option_copied at.entry) (tested_for (V.kind_of view.now) value.now (seen_by (V.kind_of view.now) (exactly (V.kind_of view.now) key.now value.now) (V.pairs_of view.now)))) }
{
    let kind = view.kind();
    let taken = take(alloc, view, exactly(kind, key.as_slice(), value.as_slice()))?;
    found(alloc, at, tested_for(kind, value.as_slice(), taken))
}

fn plan_put<V: View>(
    alloc: Global,
    view: &V,
    at: Option<&Name>,
    then_at: Option<Name>,
    key: &Octets,
    value: &Octets,
    mode: PutMode,
) -> Result<Planned, AllocError>
    ensures { IfOk result (λ p. planned_in p ≡ put_unless (V.kind_of view.now) (option_copied at.entry) then_at key.now value.now (seen_by (V.kind_of view.now) (look_of_put mode (V.kind_of view.now) key.now value.now) (V.pairs_of view.now))) }
{
    let taken = take_put(alloc, view, mode, key.as_slice(), value.as_slice())?;
    put_unless(alloc, view.kind(), at, then_at, key, value, taken)
}

fn plan_cursor_put<V: View>(
    alloc: Global,
    view: &V,
    at: Option<&Name>,
    key: &Octets,
    value: &Octets,
    mode: PutMode,
) -> Result<Planned, AllocError>
    ensures { IfOk result (λ p. planned_in p ≡ put_unless (V.kind_of view.now) (option_copied at.entry) (Some (name_of (V.kind_of view.now) (key.now, value.now))) key.now value.now (seen_by (V.kind_of view.now) (look_of_put mode (V.kind_of view.now) key.now value.now) (V.pairs_of view.now))) }
{
    let name = pair_name(view.kind(), key.as_slice(), value.as_slice()).to_name(alloc)?;
    plan_put(alloc, view, at, Some(name), key, value, mode)
}

fn plan_delete<V: View>(
    alloc: Global,
    view: &V,
    at: Option<&Name>,
    key: &Octets,
) -> Result<Planned, AllocError>
    ensures { IfOk result (λ p. planned_in p ≡ deleted (V.kind_of view.now) (option_copied at.entry) (seen_by (V.kind_of view.now) (all_of_key (V.kind_of view.now) key.now) (V.pairs_of view.now))) }
{
    let taken = take_key(alloc, view, key.as_slice())?;
    deleted(alloc, view.kind(), at, taken.as_slice())
}

fn count_key<V: View>(alloc: Global, view: &V, key: &[u8]) -> Result<u64, AllocError>
    ensures { IfOk result (λ count. count ≡ length (seen_by (V.kind_of view.now) (all_of_key (V.kind_of view.now) key.now) (V.pairs_of view.now))) }
{
    let taken = take_key(alloc, view, key)?;
    Ok(taken.len() as u64)
}

// How many records the key has at which the cursor stands.
fn count_at<V: View>(alloc: Global, view: &V, at: Option<&Name>) -> Result<u64, AllocError>
    ensures { IfOk result (λ count. count ≡ length (seen_by (V.kind_of view.now) (look_at_key (V.kind_of view.now) (option_copied at.entry)) (V.pairs_of view.now))) }
{
    match at {
        None => Ok(0),
        Some(n) => count_key(alloc, view, n.key.as_slice()),
    }
}

fn plan_count<V: View>(alloc: Global, view: &V, at: Option<&Name>) -> Result<Planned, AllocError>
    ensures { IfOk result (λ p. planned_in p ≡ record { answer = CountOf (length (seen_by (V.kind_of view.now) (look_at_key (V.kind_of view.now) (option_copied at.entry)) (V.pairs_of view.now))); answered = true; changes = []; place = option_copied at.entry }) }
{
    let count = count_at(alloc, view, at)?;
    Ok(answers(alloc, Answer::Count { count }, copy_of_place(at)?))
}

fn plan_move<V: View>(
    alloc: Global,
    view: &V,
    at: Option<&Name>,
    motion: &Motion,
) -> Result<Planned, AllocError>
    ensures { IfOk result (λ p. planned_in p ≡ went (V.kind_of view.now) (option_copied at.entry) (tested (V.kind_of view.now) motion.now (seen_by (V.kind_of view.now) (look_of_motion (V.kind_of view.now) motion.now (option_copied at.entry)) (V.pairs_of view.now)))) }
{
    let kind = view.kind();
    let taken = take(alloc, view, look_of_motion(kind, motion, at))?;
    went(alloc, kind, at, tested(kind, motion, taken))
}

fn plan_cursor_delete<V: View>(
    alloc: Global,
    view: &V,
    at: Option<&Name>,
) -> Result<Planned, AllocError>
    ensures { IfOk result (λ p. planned_in p ≡ deleted (V.kind_of view.now) (option_copied at.entry) (seen_by (V.kind_of view.now) (look_at_place (option_copied at.entry)) (V.pairs_of view.now))) }
{
    match take(alloc, view, look_at_place(at))? {
        None => says(alloc, Answer::NotFound, at),
        Some(found) => deleted(alloc, view.kind(), at, &[found]),
    }
}

// What a call comes to that its cursor's place does not answer.
fn carry_out<V: View>(
    alloc: Global,
    view: &V,
    call: &Call,
    at: Option<&Name>,
) -> Result<Planned, AllocError>
    ensures { IfOk result (λ p. planned_in p ≡ conclude (V.kind_of view.now) call.now (option_copied at.entry) (seen_by (V.kind_of view.now) (look_of (V.kind_of view.now) call.now (option_copied at.entry)) (V.pairs_of view.now))) }
{
    match call {
        Call::Get { key, .. } => plan_get(alloc, view, at, key),
        Call::GetBoth { key, value, .. } => plan_get_both(alloc, view, at, key, value),
        Call::Put {
            key,
            value,
            mode,
            ..
        } => plan_put(alloc, view, at, copy_of_place(at)?, key, value, *mode),
        Call::Delete { key, .. } => plan_delete(alloc, view, at, key),
        Call::Count { .. } => plan_count(alloc, view, at),
        Call::Cur { motion, .. } => plan_move(alloc, view, at, motion),
        Call::CPutCur { value, .. } => put_at_place(alloc, at, value),
        Call::CDel { .. } => plan_cursor_delete(alloc, view, at),
        Call::CPut {
            key,
            value,
            mode,
            ..
        } => plan_cursor_put(alloc, view, at, key, value, *mode),
        _ => says(alloc, Answer::Done, at),
    }
}

/// What a call on the records of a database comes to, with its cursor at that place: the answer, the
/// changes in order and where the cursor then stands, all as the model has them. Refusals are asked
/// before (`refusal`); room in the log and locks are not asked here. It looks at the records that the
/// call is about alone. The only error is out of memory.
pub fn plan<V: View>(
    alloc: Global,
    view: &V,
    call: &Call,
    at: Option<&Name>,
) -> Result<Planned, AllocError>
    ensures { IfOk result (λ p. planned_in p ≡ evaluation (V.kind_of view.now) call.now (option_copied at.entry) (V.pairs_of view.now)) }
{
    if let Some(answer) = early_of(alloc, view, call, at)? {
        return says(alloc, answer, at);
    }
    carry_out(alloc, view, call, at)
}
