// One round after another.
ghost use Rattle.std.specs.Prelude.{◌≡◌, ◌∷◌, [], IfOk};
ghost use Rattle.soak_plan.specs.Rounds.{call_drawn, call_in_transaction, has_begun_after, keyed_call, level_drawn, next_round, put_drawn, step_in_turn};

use crate::drawing::{drawn, next_number};
use crate::drawn_call::DrawnCall;
use crate::round::Round;
use crate::soak_state::SoakState;
use je_order::{Octets, Word};
use std::alloc::{AllocError, Global};
use store_model::{Call, Durability, Isolation, PutMode, Step};

// The isolation level of a draw of 4.
fn level_drawn(draw: u8) -> Isolation
    ensures { result ≡ level_drawn draw }
{
    match draw {
        0 => Isolation::ReadUncommitted,
        1 => Isolation::ReadCommitted,
        2 => Isolation::RepeatableRead,
        _ => Isolation::Serializable,
    }
}

// One byte.
fn one_byte(alloc: Global, byte: u8) -> Result<Octets, AllocError>
    ensures { IfOk result (λ octets. octets ≡ byte ∷ []) }
{
    Octets::from_slice(alloc, [byte].as_slice())
}

// A `get` or a `delete` in `t`.
fn keyed_call(alloc: Global, draw: u8, key: u8) -> Result<Call, AllocError>
    ensures { IfOk result (λ call. call ≡ keyed_call draw key) }
{
    let db = Word::from_slice(alloc, b"t".as_slice())?;
    let key = one_byte(alloc, key)?;
    if draw == 4 {
        Ok(Call::Get {
            db,
            key,
            rmw: false,
        })
    } else {
        Ok(Call::Delete { db, key })
    }
}

// A `put` in `t` or `u`.
fn put_drawn(alloc: Global, draw: u8, key: u8, value: u8) -> Result<Call, AllocError>
    ensures { IfOk result (λ call. call ≡ put_drawn draw key value) }
{
    let db = if draw == 6 {
        Word::from_slice(alloc, b"u".as_slice())?
    } else {
        Word::from_slice(alloc, b"t".as_slice())?
    };
    Ok(Call::Put {
        db,
        key: one_byte(alloc, key)?,
        value: one_byte(alloc, value)?,
        mode: PutMode::Overwrite,
    })
}

// The call of a session that has a transaction, by a draw of 8.
fn call_in_transaction(alloc: Global, draw: u8, number: u32) -> Result<DrawnCall, AllocError>
    ensures { IfOk result (λ drawn. drawn ≡ call_in_transaction draw number) }
{
    if draw == 7 {
        return Ok(DrawnCall {
            call: Call::Commit,
            number,
        });
    }
    let second = next_number(number);
    let key = drawn(64, second);
    if draw == 4 || draw == 5 {
        return Ok(DrawnCall {
            call: keyed_call(alloc, draw, key)?,
            number: second,
        });
    }
    let third = next_number(second);
    let value = drawn(256, third);
    Ok(DrawnCall {
        call: put_drawn(alloc, draw, key, value)?,
        number: third,
    })
}

// The call of a session, by whether it has a transaction.
fn call_drawn(alloc: Global, begun: bool, number: u32) -> Result<DrawnCall, AllocError>
    ensures { IfOk result (λ drawn. drawn ≡ call_drawn begun number) }
{
    let first = next_number(number);
    if begun {
        return call_in_transaction(alloc, drawn(8, first), first);
    }
    Ok(DrawnCall {
        call: Call::Begin {
            level: level_drawn(drawn(4, first)),
            durability: Durability::NoSync,
            wait: false,
        },
        number: first,
    })
}

// Whether a session has a transaction after its call.
fn has_begun_after(call: &Call) -> bool
    ensures { result ≡ has_begun_after call.now }
{
    !matches!(call, Call::Commit)
}

/// The next round.
pub fn next_round(alloc: Global, state: SoakState) -> Result<Round, AllocError>
    ensures { IfOk result (λ round. round ≡ next_round state) }
{
    let first = next_number(state.number);
    let at = drawn(4, first);
    let DrawnCall { call, number } = call_drawn(alloc, state.begun[at as usize], first)?;
    let mut begun = state.begun;
    begun[at as usize] = has_begun_after(&call);
    Ok(Round {
        session: at + 1,
        call,
        after: SoakState { number, begun },
    })
}

/// The step of maintenance after so many others: each in turn, and then again from the first.
pub fn step_in_turn(before: u32) -> Step
    ensures { result ≡ step_in_turn before }
{
    match before % 4 {
        0 => Step::Begin,
        1 => Step::Flush,
        2 => Step::Finish,
        _ => Step::Sync,
    }
}
