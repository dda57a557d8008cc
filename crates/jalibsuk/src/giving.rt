// Calls that methods give.
ghost use Rattle.std.specs.Prelude.{◌≡◌, Option as Maybe, Some, false};
ghost use Rattle.store_model.specs.declared.call.Call.{Call as Asked};
ghost use Rattle.store_model.specs.declared.call.Call.TheVariants.{Close as Closes, Cur as Moves};
ghost use Rattle.jalibsuk.specs.Named.{IsMade, name_of_handle};
ghost use Rattle.jalibsuk.specs.Methods.{Gives};
ghost use Rattle.jalibsuk.specs.Cursors.{Opens, motion_by};

use crate::asking::give;
use crate::cursor_calls::cur;
use crate::numbering::open_first_free;
use crate::{Env, Error, Seek};
use je_disk::Disk;
use std::alloc::Global;
use store_model::{Answer, Call};

impl<D: Disk> Env<D> {
    // The allocator.
    pub(crate) fn allocator(&self) -> Global {
        self.alloc
    }

    // Gives a session's call, if there was memory to make it.
    pub(crate) fn give_call(
        &mut self,
        session: u8,
        call: Result<Call, Error>,
    ) -> Result<Answer, Error>
        ensures gives { (asked : Maybe Asked) → IsMade asked call → Gives D.meaning self.old.environment self.new.environment session asked result }
        ensures names { self.new.names ≡ self.old.names }
    {
        give(&mut self.environment, self.alloc, session, call)
    }

    // Opens a session's cursor on the database of a handle, and gives its number.
    pub(crate) fn open_number(&mut self, session: u8, handle: usize) -> Result<u8, Error>
        ensures opens { Opens D.meaning 8 1 self.old.environment self.new.environment session (name_of_handle handle self.old.names) result }
        ensures names { self.new.names ≡ self.old.names }
    {
        open_first_free(
            &mut self.environment,
            self.alloc,
            self.names.as_slice(),
            handle,
            session,
        )
    }

    // Moves a session's cursor, and reads the record there.
    pub(crate) fn move_cursor(
        &mut self,
        session: u8,
        number: u8,
        seek: Seek,
        rmw: bool,
    ) -> Result<Answer, Error>
        ensures gives { Gives D.meaning self.old.environment self.new.environment session (Some (Moves number (motion_by seek.entry) rmw)) result }
        ensures names { self.new.names ≡ self.old.names }
    {
        let call = cur(self.allocator(), number, seek, rmw);
        self.give_call(session, call)
    }

    // Closes a session's cursor.
    pub(crate) fn shut(&mut self, session: u8, number: u8) -> Result<Answer, Error>
        ensures gives { Gives D.meaning self.old.environment self.new.environment session (Some (Closes number)) result }
        ensures names { self.new.names ≡ self.old.names }
    {
        let call = Ok(Call::Close { cursor: number });
        self.give_call(session, call)
    }
}
