// Beginning a transaction.
ghost use Rattle.std.specs.Prelude.{◌≡◌, ◌≤◌, ℕ, None, IfSome, IsNone, true, is_some};
ghost use Rattle.je_answers.specs.Standing.{Standing, active_of};
ghost use Rattle.jalibsuk.specs.Usable.{IsUsable, StandsAt};
ghost use Rattle.jalibsuk.specs.Told.{token_in};
ghost use Rattle.jalibsuk.specs.Methods.{Begins, IsFree};

use crate::asking::ask;
use crate::error::error_told;
use crate::{Error, Txn, TxnOptions};
use environment::Environment;
use je_disk::Disk;
use std::alloc::Global;
use store_model::{Answer, Call};

// The first session from 1 to 63 that has no transaction.
fn free_session<D: Disk>(environment: &Environment<D>) -> Option<u8>
    ensures free { IfSome result (λ session. IsFree D.meaning environment.now session) }
    ensures range { IfSome result (λ session. (1 ≤ session) × (session ≤ 63)) }
    ensures all { IsNone result → (session : ℕ) → 1 ≤ session → session ≤ 63 → (most : ℕ) (st : Standing) → StandsAt D.meaning most environment.now st → is_some (active_of session st.actives) ≡ true }
{
    for session in 1..64u8 {
        if !environment.has_transaction(session) {
            return Some(session);
        }
    }
    None
}

// The token of a transaction that began.
fn begun(session: u8, answered: Result<Answer, Error>) -> Result<Txn, Error>
    ensures { result ≡ token_in session answered }
{
    match answered {
        Ok(Answer::Txn { txn: _ }) => Ok(Txn { session }),
        Ok(other) => {
            let error = error_told(&other);
            drop(other);
            Err(error)
        }
        Err(error) => Err(error),
    }
}

// Begins a transaction.
pub(crate) fn begin<D: Disk>(
    environment: &mut Environment<D>,
    alloc: Global,
    options: TxnOptions,
) -> Result<Txn, Error>
    requires usable { IsUsable D.meaning environment.old }
    ensures usable { IsUsable D.meaning environment.new }
    ensures begins { Begins D.meaning environment.old environment.new options.isolation options.durability result }
{
    let Some(session) = free_session(environment) else {
        return Err(Error::TooManyTransactions);
    };
    let call = Call::Begin {
        level: options.isolation,
        durability: options.durability,
        wait: false,
    };
    let answered = ask(environment, alloc, session, &call);
    drop(call);
    begun(session, answered)
}
