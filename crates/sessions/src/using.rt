// Who uses a database.
ghost use Rattle.std.specs.Prelude.{ℕ, ◌≡◌, ◌==◌, ◌&&◌, List, find, option_map};
ghost use Rattle.std.specs.List.{list_any};
ghost use Rattle.std.specs.Option.{option_copied};
ghost use Rattle.store_model.specs.declared.place.Place.{Place};
ghost use Rattle.lock_table.specs.Locks.{lesser};
ghost use Rattle.je_answers.specs.Locking.{has_cursor_on};
ghost use Rattle.open_cursors.specs.Places.{AreCursorsAt};

use crate::Sessions;
use je_answers::Active;
use je_order::TxnId;
use open_cursors::OpenCursors;

/// The lesser of two transactions, where there are two.
pub(crate) fn lesser_of(a: Option<TxnId>, b: Option<TxnId>) -> Option<TxnId>
    ensures { result ≡ lesser a b }
{
    match (a, b) {
        (Some(x), Some(y)) => Some(if x.0 <= y.0 { x } else { y }),
        (Some(x), None) => Some(x),
        (None, b) => b,
    }
}

// The first of these transactions whose session has a cursor on a database.
fn first_user<'a>(actives: &'a [Active], cursors: &OpenCursors, db: u32) -> Option<&'a Active>
    ensures { option_copied result ≡ find (λ a. list_any (λ c. (a.session == c.session) && (c.place.db == db)) cursors.now.cursors.items) actives.now }
{
    actives
        .iter()
        .find(|active| cursors.is_used_by(active.session, db))
}

/// The first transaction whose session has a cursor on a database.
pub(crate) fn cursor_user_in(sessions: &Sessions, db: u32) -> Option<TxnId>
    ensures { (places : ℕ → List Place) → AreCursorsAt sessions.now.cursors places → result ≡ option_map (λ a. a.txn) (find (λ a. has_cursor_on db (places a.session)) sessions.now.txns.actives.items) }
{
    match first_user(sessions.txns.actives(), &sessions.cursors, db) {
        None => None,
        Some(active) => Some(active.txn),
    }
}
