// The open cursors.
ghost use Rattle.std.specs.Prelude.{ℕ, ◌≡◌, ◌==◌, ◌&&◌, ◌++◌, ◌∷◌, [], List, None, Some, not, find, filter, option_map, IfOk, OnOk, OnErr};
ghost use Rattle.std.specs.List.{list_any};
ghost use Rattle.std.specs.Option.{option_copied, IfSome};
ghost use Rattle.store_model.specs.declared.store.Store.{Store as Records};
ghost use Rattle.store_model.specs.declared.place.Place.{Place as Stand};
ghost use Rattle.je_answers.specs.Standing.{place_at, with_at};
ghost use Rattle.je_answers.specs.Locking.{has_cursor_on};
ghost use Rattle.je_answers.specs.After.{moved_to};
ghost use Rattle.open_cursors.specs.Places.{AreCursorsAt, AreUnder, is_of, moved_in};
ghost use Rattle.open_cursors.specs.Under.{IsUnderIn};

use crate::OpenCursor;
use je_order::{Name, copy_of};
use std::alloc::{AllocError, Global};
use store_model::Place;

/// The open cursors of all sessions. It is made once and lives as long as the environment. No two cursors of a
/// session have one number.
#[derive(Drop)]
pub struct OpenCursors {
    cursors: Vec<OpenCursor>,
}

// Whether it is the cursor of that session and number.
fn is_of(session: u8, cursor: u8, opened: &OpenCursor) -> bool
    ensures { result ≡ is_of session cursor opened.now }
{
    session == opened.session && opened.place.cursor == cursor
}

// Whether it is a cursor of that session on that database.
fn is_on(session: u8, db: u32, opened: &OpenCursor) -> bool
    ensures { result ≡ ((session == opened.now.session) && (opened.now.place.db == db)) }
{
    session == opened.session && opened.place.db == db
}

// Whether one of these is.
fn is_used(cursors: &[OpenCursor], session: u8, db: u32) -> bool
    ensures { result ≡ list_any (λ c. (session == c.session) && (c.place.db == db)) cursors.now }
{
    cursors.iter().any(|opened| is_on(session, db, opened))
}

// Takes a session's cursor out. It takes no memory.
fn leave_out(cursors: &mut Vec<OpenCursor>, session: u8, cursor: u8)
    ensures { cursors.new.items ≡ filter (λ c. not (is_of session cursor c)) cursors.old.items }
{
    cursors.retain(|opened| !is_of(session, cursor, opened));
}

// Takes all cursors of a session out. It takes no memory.
fn leave_session_out(cursors: &mut Vec<OpenCursor>, session: u8)
    ensures { cursors.new.items ≡ filter (λ c. not (session == c.session)) cursors.old.items }
{
    cursors.retain(|opened| session != opened.session);
}

// A copy of a position.
fn copy_of_position(at: &Option<Name>) -> Result<Option<Name>, AllocError>
    ensures { IfOk result (λ copy. copy ≡ at.now) }
{
    match at {
        None => Ok(None),
        Some(name) => Ok(Some(copy_of(name)?)),
    }
}

// A copy of a cursor, with another number.
fn copy_of_cursor(opened: &OpenCursor, to: u8) -> Result<OpenCursor, AllocError>
    ensures { IfOk result (λ copy. copy ≡ record { session = opened.now.session; place = record { cursor = to; db = opened.now.place.db; at = opened.now.place.at }; name = opened.now.name; kind = opened.now.kind }) }
{
    let place = Place {
        cursor: to,
        db: opened.place.db,
        at: copy_of_position(&opened.place.at)?,
    };
    Ok(OpenCursor {
        session: opened.session,
        place,
        name: copy_of(&opened.name)?,
        kind: opened.kind,
    })
}

// Moves the first cursor of that session and number, if there is one. It takes no memory.
fn move_in(cursors: &mut [OpenCursor], session: u8, cursor: u8, at: Option<Name>)
    ensures { cursors.new ≡ moved_in session cursor at cursors.old }
{
    for index in 0..cursors.len() {
        if is_of(session, cursor, &cursors[index]) {
            cursors[index].place.at = at;
            return;
        }
    }
    drop(at);
}

// The same in the cursors of all sessions. It takes no memory.
fn move_one(cursors: &mut Vec<OpenCursor>, session: u8, cursor: u8, at: Option<Name>)
    ensures { cursors.new.items ≡ moved_in session cursor at cursors.old.items }
{
    move_in(cursors.as_mut_slice(), session, cursor, at);
}

impl OpenCursors {
    /// No cursor. It takes no memory.
    pub fn new(alloc: Global) -> OpenCursors
        ensures none { AreCursorsAt result (λ session. []) }
        ensures under { (store : Records) (numbers : List ℕ → ℕ) → AreUnder store numbers result }
    {
        OpenCursors {
            cursors: Vec::new(alloc),
        }
    }

    // The cursor of that session and number.
    fn found(&self, session: u8, cursor: u8) -> Option<&OpenCursor>
        ensures { option_copied result ≡ find (is_of session cursor) self.now.cursors.items }
    {
        self.cursors
            .iter()
            .find(|opened| is_of(session, cursor, opened))
    }

    /// A session's cursor, if it is open.
    pub fn cursor(&self, session: u8, cursor: u8) -> Option<&OpenCursor>
        ensures place { (places : ℕ → List Stand) → AreCursorsAt self.now places → option_map (λ c. c.place) (option_copied result) ≡ place_at cursor (places session) }
        ensures its { IfSome result (λ c. c.now.session ≡ session) }
        ensures under { (store : Records) (numbers : List ℕ → ℕ) → AreUnder store numbers self.now → IfSome result (λ c. IsUnderIn store numbers c.now.place.db c.now.name c.now.kind) }
    {
        self.found(session, cursor)
    }

    /// Whether a session has a cursor on that database.
    pub fn is_used_by(&self, session: u8, db: u32) -> bool
        ensures used { (places : ℕ → List Stand) → AreCursorsAt self.now places → result ≡ has_cursor_on db (places session) }
        ensures exact { result ≡ list_any (λ c. (session == c.session) && (c.place.db == db)) self.now.cursors.items }
    {
        is_used(self.cursors.as_slice(), session, db)
    }

    /// Opens a cursor, whose number its session has not open. The only error is out of memory, and nothing is
    /// changed by it.
    pub fn open(&mut self, opened: OpenCursor) -> Result<(), AllocError>
        ensures opened { OnOk result ((places : ℕ → List Stand) → AreCursorsAt self.old places → place_at opened.place.cursor (places opened.session) ≡ None → AreCursorsAt self.new (with_at opened.session (places opened.session ++ opened.place ∷ []) places)) }
        ensures under { OnOk result ((store : Records) (numbers : List ℕ → ℕ) → IsUnderIn store numbers opened.place.db opened.name opened.kind → AreUnder store numbers self.old → AreUnder store numbers self.new) }
        ensures err { OnErr result ((places : ℕ → List Stand) → AreCursorsAt self.old places → AreCursorsAt self.new places) }
        ensures err_under { OnErr result ((store : Records) (numbers : List ℕ → ℕ) → AreUnder store numbers self.old → AreUnder store numbers self.new) }
    {
        self.cursors.push(opened)?;
        Ok(())
    }

    /// A copy of a session's cursor with the number `to`, if it is open. The only error is out of memory.
    pub fn copied(&self, session: u8, cursor: u8, to: u8) -> Result<Option<OpenCursor>, AllocError>
        ensures place { IfOk result (λ copy. (places : ℕ → List Stand) → AreCursorsAt self.now places → option_map (λ c. c.place) copy ≡ option_map (λ p. record { cursor = to; db = p.db; at = p.at }) (place_at cursor (places session))) }
        ensures its { IfOk result (λ copy. IfSome copy (λ c. c.session ≡ session)) }
        ensures under { IfOk result (λ copy. (store : Records) (numbers : List ℕ → ℕ) → AreUnder store numbers self.now → IfSome copy (λ c. IsUnderIn store numbers c.place.db c.name c.kind)) }
    {
        match self.cursor(session, cursor) {
            None => Ok(None),
            Some(opened) => Ok(Some(copy_of_cursor(opened, to)?)),
        }
    }

    /// Closes a session's cursor. It takes no memory.
    pub fn close(&mut self, session: u8, cursor: u8)
        ensures closed { (places : ℕ → List Stand) → AreCursorsAt self.old places → AreCursorsAt self.new (with_at session (filter (λ p. not (p.cursor == cursor)) (places session)) places) }
        ensures under { (store : Records) (numbers : List ℕ → ℕ) → AreUnder store numbers self.old → AreUnder store numbers self.new }
    {
        leave_out(&mut self.cursors, session, cursor);
    }

    /// Moves a session's cursor to a record. It takes no memory.
    pub fn move_to(&mut self, session: u8, cursor: u8, at: Option<Name>)
        ensures moved { (places : ℕ → List Stand) → AreCursorsAt self.old places → AreCursorsAt self.new (with_at session (moved_to cursor at (places session)) places) }
        ensures under { (store : Records) (numbers : List ℕ → ℕ) → AreUnder store numbers self.old → AreUnder store numbers self.new }
    {
        move_one(&mut self.cursors, session, cursor, at);
    }

    /// Closes all cursors of a session. It takes no memory.
    pub fn close_all(&mut self, session: u8)
        ensures closed { (places : ℕ → List Stand) → AreCursorsAt self.old places → AreCursorsAt self.new (with_at session [] places) }
        ensures under { (store : Records) (numbers : List ℕ → ℕ) → AreUnder store numbers self.old → AreUnder store numbers self.new }
    {
        leave_session_out(&mut self.cursors, session);
    }
}
