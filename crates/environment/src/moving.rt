// The cursor that a call moves.
ghost use Rattle.std.specs.Prelude.{Option as Maybe};
ghost use Rattle.je_order.specs.declared.name.Name.{Name as Named};
ghost use Rattle.store_model.specs.declared.call.Call.{Call as Asked};
ghost use Rattle.je_answers.specs.declared.active.Active.{Active as Transaction};
ghost use Rattle.je_answers.specs.Standing.{Standing};
ghost use Rattle.sessions.specs.AtStanding.{AreSessionsAt};
ghost use Rattle.environment.specs.Access.{IsCursorOf, Moves, with_move};

use je_order::Name;
use sessions::Sessions;
use store_model::Call;

/// A session's cursor, and the record at which it stands once a call is answered.
#[derive(Drop)]
pub(crate) struct Move {
    pub(crate) session: u8,
    pub(crate) cursor: u8,
    pub(crate) at: Option<Name>,
}

// The number of a call's cursor, if it is one on records at a cursor.
fn cursor_of(call: &Call) -> Option<u8>
    ensures { IsCursorOf call.now result }
{
    match call {
        Call::Count { cursor } => Some(*cursor),
        Call::Cur { cursor, .. } => Some(*cursor),
        Call::CPutCur { cursor, .. } => Some(*cursor),
        Call::CDel { cursor } => Some(*cursor),
        Call::CPut { cursor, .. } => Some(*cursor),
        _ => None,
    }
}

// The cursor that a session's call moves to that place.
pub(crate) fn move_of(session: u8, call: &Call, place: Option<Name>) -> Option<Move>
    ensures { Moves session call.now place result }
{
    match cursor_of(call) {
        None => {
            drop(place);
            None
        }
        Some(cursor) => Some(Move {
            session,
            cursor,
            at: place,
        }),
    }
}

// Moves it, if there is one. It takes no memory.
pub(crate) fn move_by(sessions: &mut Sessions, moves: Option<Move>)
    ensures { (st : Standing) (a : Transaction) (call : Asked) (place : Maybe Named) → Moves a.session call place moves → AreSessionsAt sessions.old st → AreSessionsAt sessions.new (with_move a call place st) }
{
    match moves {
        None => {}
        Some(moved) => {
            let Move {
                session,
                cursor,
                at,
            } = moved;
            sessions.move_cursor(session, cursor, at);
        }
    }
}
