// What a call comes to, from what it took.
ghost use Rattle.std.specs.Prelude.{◌≡◌, ◌∷◌, [], Some, true, false, map, length, IfOk};
ghost use Rattle.store_model.specs.declared.answer.Answer.TheVariants.{Done, Rec, Count};
ghost use Rattle.std.specs.Option.{option_copied};
ghost use Rattle.store_model.specs.declared.record_change.RecordChange.{RecordChange as OneChange};
ghost use Rattle.store_model.specs.declared.record_change.RecordChange.TheVariants.{Unset};
ghost use Rattle.store_model.specs.Store.{Pair, name_of};
ghost use Rattle.je_order.specs.Order.{is_same_bytes as is_same_text};
ghost use Rattle.store_model.specs.Records.{says, went, found, set, with_data, tested, tested_for, put_unless, deleted, put_at_place, conclude};
ghost use Rattle.record_eval.specs.Looks.{evaluated_in};

use crate::edge::pair_name;
use crate::evaluation::Evaluation;
use je_order::{List, Name, Octets, cmp_bytes, copy_of};
use std::alloc::{AllocError, Global};
use store_model::{Answer, Call, Kind, Motion, RecordChange};

/// A copy of a place.
fn copy_of_place(at: Option<&Name>) -> Result<Option<Name>, AllocError>
    ensures { IfOk result (λ place. place ≡ option_copied at.entry) }
{
    match at {
        None => Ok(None),
        Some(n) => Ok(Some(copy_of(n)?)),
    }
}

/// An answer alone.
pub fn says(alloc: Global, answer: Answer, at: Option<&Name>) -> Result<Evaluation, AllocError>
    ensures { IfOk result (λ e. evaluated_in e ≡ says answer (option_copied at.entry)) }
{
    let place = copy_of_place(at)?;
    Ok(Evaluation {
        answer,
        answered: false,
        changes: List::new(alloc),
        place,
    })
}

/// The answer of a record.
fn rec_of(pair: &(Octets, Octets)) -> Result<Answer, AllocError>
    ensures { IfOk result (λ answer. answer ≡ Rec pair.now.0 pair.now.1) }
{
    Ok(Answer::Rec {
        key: copy_of(&pair.0)?,
        value: copy_of(&pair.1)?,
    })
}

/// A record that was taken is answered, and a cursor then stands there.
fn went(
    alloc: Global,
    kind: Kind,
    at: Option<&Name>,
    taken: &[(Octets, Octets)],
) -> Result<Evaluation, AllocError>
    ensures { IfOk result (λ e. evaluated_in e ≡ went kind (option_copied at.entry) taken.now) }
{
    match taken.first() {
        None => says(alloc, Answer::NotFound, at),
        Some(pair) => went_to(alloc, kind, pair),
    }
}

fn went_to(alloc: Global, kind: Kind, pair: &(Octets, Octets)) -> Result<Evaluation, AllocError>
    ensures { IfOk result (λ e. evaluated_in e ≡ record { answer = Rec pair.now.0 pair.now.1; answered = true; changes = []; place = Some (name_of kind pair.now) }) }
{
    let answer = rec_of(pair)?;
    let place = pair_name(alloc, kind, &pair.0, &pair.1)?;
    Ok(Evaluation {
        answer,
        answered: true,
        changes: List::new(alloc),
        place: Some(place),
    })
}

/// The same without a cursor.
fn found(
    alloc: Global,
    at: Option<&Name>,
    taken: &[(Octets, Octets)],
) -> Result<Evaluation, AllocError>
    ensures { IfOk result (λ e. evaluated_in e ≡ found (option_copied at.entry) taken.now) }
{
    match taken.first() {
        None => says(alloc, Answer::NotFound, at),
        Some(pair) => found_at(alloc, at, pair),
    }
}

fn found_at(
    alloc: Global,
    at: Option<&Name>,
    pair: &(Octets, Octets),
) -> Result<Evaluation, AllocError>
    ensures { IfOk result (λ e. evaluated_in e ≡ record { answer = Rec pair.now.0 pair.now.1; answered = true; changes = []; place = option_copied at.entry }) }
{
    let answer = rec_of(pair)?;
    let place = copy_of_place(at)?;
    Ok(Evaluation {
        answer,
        answered: true,
        changes: List::new(alloc),
        place,
    })
}

/// Only a record with this data counts.
fn with_data<'a>(value: &Octets, taken: &'a [(Octets, Octets)]) -> &'a [(Octets, Octets)]
    ensures { result.now ≡ with_data value.now taken.now }
{
    match taken.first() {
        None => taken,
        Some(pair) => {
            if cmp_bytes(pair.1.as_slice(), value.as_slice()).is_eq() {
                &taken[..1]
            } else {
                &taken[..0]
            }
        }
    }
}

fn tested_for<'a>(
    kind: Kind,
    value: &Octets,
    taken: &'a [(Octets, Octets)],
) -> &'a [(Octets, Octets)]
    ensures { result.now ≡ tested_for kind value.now taken.now }
{
    match kind {
        Kind::Plain => with_data(value, taken),
        Kind::Dup => taken,
    }
}

/// A motion to a pair of a plain database tests the data.
fn tested<'a>(kind: Kind, motion: &Motion, taken: &'a [(Octets, Octets)]) -> &'a [(Octets, Octets)]
    ensures { result.now ≡ tested kind motion.now taken.now }
{
    match motion {
        Motion::Both { value, .. } => tested_for(kind, value, taken),
        Motion::BothRange { value, .. } => tested_for(kind, value, taken),
        _ => taken,
    }
}

/// The change that sets a record.
fn set(alloc: Global, kind: Kind, key: &Octets, value: &Octets) -> Result<RecordChange, AllocError>
    ensures { IfOk result (λ change. change ≡ set kind key.now value.now) }
{
    let at = pair_name(alloc, kind, key, value)?;
    let value = match kind {
        Kind::Plain => copy_of(value)?,
        Kind::Dup => Octets::new(alloc),
    };
    Ok(RecordChange::Set { at, value })
}

/// Done by one change, after which a cursor stands there.
fn done_by(
    alloc: Global,
    change: RecordChange,
    place: Option<Name>,
) -> Result<Evaluation, AllocError>
    ensures { IfOk result (λ e. evaluated_in e ≡ record { answer = Done; answered = false; changes = change ∷ []; place = place }) }
{
    let mut changes = List::new(alloc);
    changes.push(change)?;
    Ok(Evaluation {
        answer: Answer::Done,
        answered: false,
        changes,
        place,
    })
}

/// A put writes unless it saw a record.
fn put_unless(
    alloc: Global,
    kind: Kind,
    at: Option<&Name>,
    then_at: Option<Name>,
    key: &Octets,
    value: &Octets,
    taken: &[(Octets, Octets)],
) -> Result<Evaluation, AllocError>
    ensures { IfOk result (λ e. evaluated_in e ≡ put_unless kind (option_copied at.entry) then_at key.now value.now taken.now) }
{
    if taken.is_empty() {
        return done_by(alloc, set(alloc, kind, key, value)?, then_at);
    }
    let place = copy_of_place(at)?;
    Ok(Evaluation {
        answer: Answer::KeyExist,
        answered: true,
        changes: List::new(alloc),
        place,
    })
}

fn unset_all(
    alloc: Global,
    kind: Kind,
    taken: &[(Octets, Octets)],
) -> Result<List<RecordChange>, AllocError>
    ensures { IfOk result (λ changes. changes ≡ map (λ (p : Pair). Unset (name_of kind p)) taken.now) }
{
    let mut changes = Vec::new(alloc);
    for pair in taken {
        let at = pair_name(alloc, kind, &pair.0, &pair.1)?;
        changes.push(RecordChange::Unset { at })?;
    }
    Ok(List::from_vec(changes))
}

/// A delete takes out what it saw.
fn deleted(
    alloc: Global,
    kind: Kind,
    at: Option<&Name>,
    taken: &[(Octets, Octets)],
) -> Result<Evaluation, AllocError>
    ensures { IfOk result (λ e. evaluated_in e ≡ deleted kind (option_copied at.entry) taken.now) }
{
    if taken.is_empty() {
        return says(alloc, Answer::NotFound, at);
    }
    let changes = unset_all(alloc, kind, taken)?;
    let place = copy_of_place(at)?;
    Ok(Evaluation {
        answer: Answer::Done,
        answered: true,
        changes,
        place,
    })
}

/// The record where the cursor stands is set to data.
fn put_at_place(alloc: Global, at: Option<&Name>, value: &Octets) -> Result<Evaluation, AllocError>
    ensures { IfOk result (λ e. evaluated_in e ≡ put_at_place (option_copied at.entry) value.now) }
{
    match at {
        None => says(alloc, Answer::NoPosition, at),
        Some(n) => {
            let change = RecordChange::Set {
                at: copy_of(n)?,
                value: copy_of(value)?,
            };
            done_by(alloc, change, Some(copy_of(n)?))
        }
    }
}

fn counted(alloc: Global, at: Option<&Name>, count: u64) -> Result<Evaluation, AllocError>
    ensures { IfOk result (λ e. evaluated_in e ≡ record { answer = Count count; answered = true; changes = []; place = option_copied at.entry }) }
{
    let place = copy_of_place(at)?;
    Ok(Evaluation {
        answer: Answer::Count { count },
        answered: true,
        changes: List::new(alloc),
        place,
    })
}

/// What a call comes to, from what it took.
pub fn conclude(
    alloc: Global,
    kind: Kind,
    call: &Call,
    at: Option<&Name>,
    taken: &[(Octets, Octets)],
) -> Result<Evaluation, AllocError>
    ensures { IfOk result (λ e. evaluated_in e ≡ conclude kind call.now (option_copied at.entry) taken.now) }
{
    match call {
        Call::Get { .. } => found(alloc, at, taken),
        Call::GetBoth { value, .. } => found(alloc, at, tested_for(kind, value, taken)),
        Call::Put { key, value, .. } => {
            put_unless(alloc, kind, at, copy_of_place(at)?, key, value, taken)
        }
        Call::Delete { .. } => deleted(alloc, kind, at, taken),
        Call::Count { .. } => counted(alloc, at, taken.len() as u64),
        Call::Cur { motion, .. } => went(alloc, kind, at, tested(kind, motion, taken)),
        Call::CPutCur { value, .. } => put_at_place(alloc, at, value),
        Call::CDel { .. } => deleted(alloc, kind, at, taken),
        Call::CPut { key, value, .. } => {
            let place = pair_name(alloc, kind, key, value)?;
            put_unless(alloc, kind, at, Some(place), key, value, taken)
        }
        _ => says(alloc, Answer::Done, at),
    }
}
