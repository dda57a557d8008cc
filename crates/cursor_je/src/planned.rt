// What a call comes to.
ghost use Rattle.std.specs.Prelude.{◌≡◌, ◌∷◌, [], true, false, IfOk};
ghost use Rattle.std.specs.Option.{option_copied};
ghost use Rattle.store_model.specs.declared.answer.Answer.TheVariants.{Done};
ghost use Rattle.store_model.specs.Records.{says};
ghost use Rattle.cursor_je.specs.Looks.{planned_in};

use je_order::{List, Name, copy_of};
use std::alloc::{AllocError, Global};
use store_model::{Answer, RecordChange};

/// What a call on a database's records comes to.
#[derive(Drop)]
pub struct Planned {
    pub answer: Answer,
    /// Whether the answer is that of the record that the call took.
    pub answered: bool,
    /// The changes, in order.
    pub changes: List<RecordChange>,
    /// Where the cursor then stands.
    pub place: Option<Name>,
}

/// A copy of a place.
pub(crate) fn copy_of_place(at: Option<&Name>) -> Result<Option<Name>, AllocError>
    ensures { IfOk result (λ place. place ≡ option_copied at.entry) }
{
    match at {
        None => Ok(None),
        Some(n) => Ok(Some(copy_of(n)?)),
    }
}

/// An answer alone: the cursor stays.
pub(crate) fn says(alloc: Global, answer: Answer, at: Option<&Name>) -> Result<Planned, AllocError>
    ensures { IfOk result (λ p. planned_in p ≡ says answer (option_copied at.entry)) }
{
    let place = copy_of_place(at)?;
    Ok(Planned {
        answer,
        answered: false,
        changes: List::new(alloc),
        place,
    })
}

/// The answer of a record that was taken: nothing changes.
pub(crate) fn answers(alloc: Global, answer: Answer, place: Option<Name>) -> Planned
    ensures { planned_in result ≡ record { answer = answer; answered = true; changes = []; place = place } }
{
    Planned {
        answer,
        answered: true,
        changes: List::new(alloc),
        place,
    }
}

/// Done by one change, after which a cursor stands there.
pub(crate) fn done_by(
    alloc: Global,
    change: RecordChange,
    place: Option<Name>,
) -> Result<Planned, AllocError>
    ensures { IfOk result (λ p. planned_in p ≡ record { answer = Done; answered = false; changes = change ∷ []; place = place }) }
{
    let mut changes = List::new(alloc);
    changes.push(change)?;
    Ok(Planned {
        answer: Answer::Done,
        answered: false,
        changes,
        place,
    })
}
