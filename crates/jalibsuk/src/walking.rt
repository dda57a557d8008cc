// Walks over records.
ghost use Rattle.std.specs.Prelude.{◌≡◌, Option as Maybe, not, if◌then◌else◌};
ghost use Rattle.jalibsuk.specs.Named.{name_of_handle};
ghost use Rattle.jalibsuk.specs.Scans.{BeginsWalk, Places, Walks, is_past, walk_of};

use crate::answered::looked_for;
use crate::keys::has_key;
use crate::walk::{Walk, first_of, place_of};
use crate::{Direction, Env, Error, Keys, Seek};
use je_disk::Disk;
use store_model::Answer;

// Whether a record was found that has none of the keys.
pub(crate) fn is_past(keys: &Keys, answered: &Result<Answer, Error>) -> bool
    ensures { result ≡ is_past keys.now answered.now }
{
    match answered {
        Ok(Answer::Rec { key, value: _ }) => !has_key(keys, key.as_slice()),
        Ok(
            Answer::IndexRec {
                key,
                primary_key: _,
                value: _,
            },
        ) => !has_key(keys, key.as_slice()),
        _ => false,
    }
}

// The walk of a session's cursor, as it begins.
fn walk_of<'k>(session: u8, number: u8, direction: Direction, keys: Keys<'k>) -> Walk<'k>
    ensures { result ≡ walk_of session number direction keys.entry }
{
    Walk {
        session,
        number,
        direction,
        keys,
        seek: first_of(direction, keys),
        left: u64::MAX,
    }
}

impl<D: Disk> Env<D> {
    // Begins a walk where it is to. Where that fails its cursor is closed.
    fn place<'k>(&mut self, walk: Walk<'k>, place: Option<Seek>) -> Result<Walk<'k>, Error>
        ensures places { Places D.meaning place.entry self.old.environment self.new.environment walk.entry result }
        ensures names { self.new.names ≡ self.old.names }
    {
        let Some(seek) = place else {
            return Ok(walk);
        };
        let looked = looked_for(self.move_cursor(walk.session, walk.number, seek, false));
        match looked {
            Ok(()) => Ok(walk),
            Err(error) => {
                drop(self.shut(walk.session, walk.number));
                Err(error)
            }
        }
    }

    // Begins a walk with a cursor of its own on the database of a handle.
    pub(crate) fn begin_walk<'k>(
        &mut self,
        session: u8,
        handle: usize,
        keys: Keys<'k>,
        direction: Direction,
    ) -> Result<Walk<'k>, Error>
        ensures walks { Walks D.meaning direction keys.entry self.old.environment self.new.environment session (name_of_handle handle self.old.names) result }
        ensures names { self.new.names ≡ self.old.names }
    {
        match self.open_number(session, handle) {
            Ok(number) => self.place(
                walk_of(session, number, direction, keys),
                place_of(direction, keys),
            ),
            Err(error) => Err(error),
        }
    }
}
