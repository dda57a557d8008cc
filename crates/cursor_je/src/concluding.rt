// What a call comes to, from the record that it found.
ghost use Rattle.std.specs.Prelude.{◌≡◌, ◌∷◌, [], Some, true, IfOk};
ghost use Rattle.std.specs.Option.{option_copied};
ghost use Rattle.store_model.specs.declared.answer.Answer.TheVariants.{Rec};
ghost use Rattle.store_model.specs.Store.{name_of};
ghost use Rattle.store_model.specs.Records.{went, found, set, with_data, tested, tested_for, put_unless, put_at_place};
ghost use Rattle.cursor_je.specs.Looks.{pair_in, taken_in, planned_in};

use crate::RecordRef;
use crate::name_ref::pair_name;
use crate::planned::{Planned, answers, copy_of_place, done_by, says};
use crate::record_ref::record_name;
use je_order::{Name, Octets, cmp_bytes, copy_of};
use std::alloc::{AllocError, Global};
use store_model::{Answer, Kind, Motion, RecordChange};

// The answer of a record.
fn rec_of(alloc: Global, taken: &RecordRef<'_>) -> Result<Answer, AllocError>
    ensures { IfOk result (λ answer. answer ≡ Rec (pair_in taken.now).0 (pair_in taken.now).1) }
{
    Ok(Answer::Rec {
        key: Octets::from_slice(alloc, taken.key)?,
        value: Octets::from_slice(alloc, taken.value)?,
    })
}

fn went_to(alloc: Global, kind: Kind, taken: &RecordRef<'_>) -> Result<Planned, AllocError>
    ensures { IfOk result (λ p. planned_in p ≡ record { answer = Rec (pair_in taken.now).0 (pair_in taken.now).1; answered = true; changes = []; place = Some (name_of kind (pair_in taken.now)) }) }
{
    let answer = rec_of(alloc, taken)?;
    let place = record_name(kind, taken).to_name(alloc)?;
    Ok(answers(alloc, answer, Some(place)))
}

/// A record that was taken is answered, and a cursor then stands there.
pub fn went(
    alloc: Global,
    kind: Kind,
    at: Option<&Name>,
    taken: Option<RecordRef<'_>>,
) -> Result<Planned, AllocError>
    ensures { IfOk result (λ p. planned_in p ≡ went kind (option_copied at.entry) (taken_in taken.entry)) }
{
    match taken {
        None => says(alloc, Answer::NotFound, at),
        Some(found) => went_to(alloc, kind, &found),
    }
}

fn found_at(alloc: Global, at: Option<&Name>, taken: &RecordRef<'_>) -> Result<Planned, AllocError>
    ensures { IfOk result (λ p. planned_in p ≡ record { answer = Rec (pair_in taken.now).0 (pair_in taken.now).1; answered = true; changes = []; place = option_copied at.entry }) }
{
    let answer = rec_of(alloc, taken)?;
    let place = copy_of_place(at)?;
    Ok(answers(alloc, answer, place))
}

/// The same without a cursor.
pub fn found(
    alloc: Global,
    at: Option<&Name>,
    taken: Option<RecordRef<'_>>,
) -> Result<Planned, AllocError>
    ensures { IfOk result (λ p. planned_in p ≡ found (option_copied at.entry) (taken_in taken.entry)) }
{
    match taken {
        None => says(alloc, Answer::NotFound, at),
        Some(record) => found_at(alloc, at, &record),
    }
}

// Only a record with this data counts.
fn with_data<'a>(value: &[u8], taken: Option<RecordRef<'a>>) -> Option<RecordRef<'a>>
    ensures { taken_in result ≡ with_data value.now (taken_in taken.entry) }
{
    match taken {
        None => None,
        Some(found) => {
            if cmp_bytes(found.value, value).is_eq() {
                Some(found)
            } else {
                None
            }
        }
    }
}

/// A record of a plain database counts only with this data.
pub fn tested_for<'a>(
    kind: Kind,
    value: &[u8],
    taken: Option<RecordRef<'a>>,
) -> Option<RecordRef<'a>>
    ensures { taken_in result ≡ tested_for kind value.now (taken_in taken.entry) }
{
    match kind {
        Kind::Plain => with_data(value, taken),
        Kind::Dup => taken,
    }
}

/// A motion to a pair of a plain database tests the data.
pub fn tested<'a>(
    kind: Kind,
    motion: &Motion,
    taken: Option<RecordRef<'a>>,
) -> Option<RecordRef<'a>>
    ensures { taken_in result ≡ tested kind motion.now (taken_in taken.entry) }
{
    match motion {
        Motion::Both { value, .. } => tested_for(kind, value.as_slice(), taken),
        Motion::BothRange { value, .. } => tested_for(kind, value.as_slice(), taken),
        _ => taken,
    }
}

// The change that sets a record.
fn set(alloc: Global, kind: Kind, key: &Octets, value: &Octets) -> Result<RecordChange, AllocError>
    ensures { IfOk result (λ change. change ≡ set kind key.now value.now) }
{
    let at = pair_name(kind, key.as_slice(), value.as_slice()).to_name(alloc)?;
    let value = match kind {
        Kind::Plain => copy_of(value)?,
        Kind::Dup => Octets::new(alloc),
    };
    Ok(RecordChange::Set { at, value })
}

/// A put writes unless it saw a record.
pub fn put_unless(
    alloc: Global,
    kind: Kind,
    at: Option<&Name>,
    then_at: Option<Name>,
    key: &Octets,
    value: &Octets,
    taken: Option<RecordRef<'_>>,
) -> Result<Planned, AllocError>
    ensures { IfOk result (λ p. planned_in p ≡ put_unless kind (option_copied at.entry) then_at key.now value.now (taken_in taken.entry)) }
{
    match taken {
        None => done_by(alloc, set(alloc, kind, key, value)?, then_at),
        Some(_) => Ok(answers(alloc, Answer::KeyExist, copy_of_place(at)?)),
    }
}

/// The record where the cursor stands is set to data.
pub fn put_at_place(alloc: Global, at: Option<&Name>, value: &Octets) -> Result<Planned, AllocError>
    ensures { IfOk result (λ p. planned_in p ≡ put_at_place (option_copied at.entry) value.now) }
{
    match at {
        None => says(alloc, Answer::NoPosition, at),
        Some(n) => {
            let change = RecordChange::Set {
                at: copy_of(n)?,
                value: copy_of(value)?,
            };
            done_by(alloc, change, Some(copy_of(n)?))
        }
    }
}
