// Evaluation of a call on the records of one database.
ghost use Rattle.std.specs.Prelude.{◌≡◌, true, false, IfOk};
ghost use Rattle.std.specs.Option.{option_copied};
ghost use Rattle.store_model.specs.Records.{motion_needs, place_needs, empty_if, early_of, evaluation};
ghost use Rattle.store_model.specs.Reads.{at_name};
ghost use Rattle.record_eval.specs.Looks.{evaluated_in};

use crate::concluding::{conclude, says};
use crate::evaluation::Evaluation;
use crate::looking::look_of;
use crate::seeing::{has_record, seen};
use je_order::{Name, Octets};
use std::alloc::{AllocError, Global};
use store_model::{Answer, Call, Kind, Motion};

fn motion_needs(motion: &Motion) -> (bool, bool)
    ensures { result ≡ motion_needs motion.now }
{
    match motion {
        Motion::NextDup => (true, false),
        Motion::PrevDup => (true, false),
        Motion::Current => (true, true),
        _ => (false, false),
    }
}

/// Whether a call is made where its cursor stands, and whether the record has to be there still.
fn place_needs(call: &Call) -> (bool, bool)
    ensures { result ≡ place_needs call.now }
{
    match call {
        Call::Count { .. } => (true, true),
        Call::Cur { motion, .. } => motion_needs(motion),
        Call::CPutCur { .. } => (true, true),
        Call::CDel { .. } => (true, true),
        _ => (false, false),
    }
}

/// KeyEmpty where the record has to be there and is not.
fn empty_if(needed: bool, kind: Kind, n: &Name, pairs: &[(Octets, Octets)]) -> Option<Answer>
    ensures { result ≡ empty_if needed (at_name kind n.now pairs.now) }
{
    if !needed {
        return None;
    }
    if has_record(kind, n, pairs) {
        return None;
    }
    Some(Answer::KeyEmpty)
}

/// NoPosition or KeyEmpty, which the cursor's place alone decides.
pub fn early_of(
    kind: Kind,
    call: &Call,
    at: Option<&Name>,
    pairs: &[(Octets, Octets)],
) -> Option<Answer>
    ensures { result ≡ early_of kind call.now (option_copied at.entry) pairs.now }
{
    let needs = place_needs(call);
    match at {
        None => {
            if needs.0 {
                Some(Answer::NoPosition)
            } else {
                None
            }
        }
        Some(n) => empty_if(needs.1, kind, n, pairs),
    }
}

/// What a call comes to in a database of that kind, with its cursor at that place, on these records. It
/// walks and copies all of them. The only error is out of memory.
pub fn eval_records(
    alloc: Global,
    kind: Kind,
    call: &Call,
    at: Option<&Name>,
    pairs: &[(Octets, Octets)],
) -> Result<Evaluation, AllocError>
    ensures { IfOk result (λ e. evaluated_in e ≡ evaluation kind call.now (option_copied at.entry) pairs.now) }
{
    if let Some(answer) = early_of(kind, call, at, pairs) {
        return says(alloc, answer, at);
    }
    let l = look_of(alloc, kind, call, at)?;
    let taken = seen(alloc, kind, &l, pairs)?;
    conclude(alloc, kind, call, at, taken.as_slice())
}
