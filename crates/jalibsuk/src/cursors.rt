// Cursors of a transaction.
ghost use Rattle.std.specs.Prelude.{◌≡◌, ℕ, IfOk, Ok, Result as Either, Some, true, false};
ghost use Rattle.store_model.specs.declared.call.Call.TheVariants.{CDel as Deletes, Close as Closes, Count as Counts, CPut as PutsAt, CPutCur as Puts, Cur as Moves};
ghost use Rattle.store_model.specs.declared.put_mode.PutMode.TheVariants.{NoOverwrite, Overwrite};
ghost use Rattle.jalibsuk.specs.declared.error.Error.{Error as Cause};
ghost use Rattle.jalibsuk.specs.Named.{name_of_handle};
ghost use Rattle.jalibsuk.specs.Told.{and_then, count_told, done_in, index_record_told, record_told};
ghost use Rattle.jalibsuk.specs.Methods.{Calls};
ghost use Rattle.jalibsuk.specs.Cursors.{Opens, motion_by};

use crate::answered::{counted_of, done_of, found_in_index_of, found_of};
use crate::cursor_calls::{put_at, put_current};
use crate::{Cursor, Db, Env, Error, Index, IndexRecord, Record, Seek, Txn};
use je_disk::Disk;
use store_model::{Call, PutMode};

impl<D: Disk + Drop> Env<D> {
    /// Opens a cursor on a database, at no record. Errors: `TooManyCursors`, `NoDatabase`, `Invalid`, `Memory`.
    pub fn open_cursor<'t>(&mut self, txn: &'t Txn, db: Db) -> Result<Cursor<'t>, Error>
        ensures opens { (number : Either ℕ Cause) × Opens D.meaning 8 1 self.old.environment self.new.environment txn.now.session (name_of_handle db.number self.old.names) number
            × (and_then result (λ c. Ok c.number) ≡ number) × IfOk result (λ c. c.txn.now ≡ txn.now) }
        ensures names { self.new.names ≡ self.old.names }
    {
        match self.open_number(txn.session, db.number) {
            Ok(number) => Ok(Cursor { txn, number }),
            Err(error) => Err(error),
        }
    }

    /// Opens a cursor on an index, at no record. Errors as `open_cursor`.
    pub fn open_index_cursor<'t>(&mut self, txn: &'t Txn, index: Index) -> Result<Cursor<'t>, Error>
        ensures opens { (number : Either ℕ Cause) × Opens D.meaning 8 1 self.old.environment self.new.environment txn.now.session (name_of_handle index.number self.old.names) number
            × (and_then result (λ c. Ok c.number) ≡ number) × IfOk result (λ c. c.txn.now ≡ txn.now) }
        ensures names { self.new.names ≡ self.old.names }
    {
        self.open_cursor(
            txn,
            Db {
                number: index.number,
            },
        )
    }

    /// Moves the cursor, and gives the record where it then stands, or none where there is no such record: then it stays where it was. A record that
    /// an index finds is given under the record's own key. Errors: `NoPosition` where the cursor stands at no record and has to, `KeyEmpty` where its record was
    /// deleted and has to be there, `Conflict`, `TooLong`, `Invalid`, `Memory`.
    pub fn seek(&mut self, cursor: &Cursor, seek: Seek) -> Result<Option<Record>, Error>
        ensures calls { Calls D.meaning record_told self.old.environment self.new.environment cursor.now.txn.now.session (Some (Moves cursor.now.number (motion_by seek.entry) false)) result }
        ensures names { self.new.names ≡ self.old.names }
    {
        found_of(self.move_cursor(cursor.txn.session, cursor.number, seek, false))
    }

    /// The same, to write the record then: it locks it as a write does.
    pub fn seek_for_update(&mut self, cursor: &Cursor, seek: Seek) -> Result<Option<Record>, Error>
        ensures calls { Calls D.meaning record_told self.old.environment self.new.environment cursor.now.txn.now.session (Some (Moves cursor.now.number (motion_by seek.entry) true)) result }
        ensures names { self.new.names ≡ self.old.names }
    {
        found_of(self.move_cursor(cursor.txn.session, cursor.number, seek, true))
    }

    /// `seek` of a cursor on an index, with the key under which the index has the record. `NotAnIndex` where the cursor is on a database. Other
    /// errors as `seek`.
    pub fn seek_index(&mut self, cursor: &Cursor, seek: Seek) -> Result<Option<IndexRecord>, Error>
        ensures calls { Calls D.meaning index_record_told self.old.environment self.new.environment cursor.now.txn.now.session (Some (Moves cursor.now.number (motion_by seek.entry) false)) result }
        ensures names { self.new.names ≡ self.old.names }
    {
        found_in_index_of(self.move_cursor(cursor.txn.session, cursor.number, seek, false))
    }

    /// Sets the data of the record at which the cursor stands. Errors: `NoPosition`, `KeyEmpty` where the record was deleted, `ReadOnlyIndex`,
    /// `NotOnDuplicates`, `Conflict`, `TooLong`, `LogFull`, `IdsEnded`, `DiskFault`, `Invalid`, `Memory`.
    pub fn put_current(&mut self, cursor: &Cursor, data: &[u8]) -> Result<(), Error>
        ensures calls { Calls D.meaning done_in self.old.environment self.new.environment cursor.now.txn.now.session (Some (Puts cursor.now.number «data».now)) result }
        ensures names { self.new.names ≡ self.old.names }
    {
        let call = put_current(self.allocator(), cursor.number, data);
        done_of(self.give_call(cursor.txn.session, call))
    }

    /// Puts a record in the cursor's database, as `put` does, and moves the cursor to it. Errors: `ReadOnlyIndex`, `Conflict`, `TooLong`, `LogFull`, `IdsEnded`,
    /// `DiskFault`, `Invalid`, `Memory`; the cursor then stays where it was.
    pub fn put_at(&mut self, cursor: &Cursor, key: &[u8], data: &[u8]) -> Result<(), Error>
        ensures calls { Calls D.meaning done_in self.old.environment self.new.environment cursor.now.txn.now.session (Some (PutsAt cursor.now.number key.now «data».now Overwrite)) result }
        ensures names { self.new.names ≡ self.old.names }
    {
        let call = put_at(self.alloc, cursor.number, key, data, PutMode::Overwrite);
        done_of(self.give_call(cursor.txn.session, call))
    }

    /// The same of a key that has no record: `KeyExist` where it has one, at which the cursor then stands.
    pub fn insert_at(&mut self, cursor: &Cursor, key: &[u8], data: &[u8]) -> Result<(), Error>
        ensures calls { Calls D.meaning done_in self.old.environment self.new.environment cursor.now.txn.now.session (Some (PutsAt cursor.now.number key.now «data».now NoOverwrite)) result }
        ensures names { self.new.names ≡ self.old.names }
    {
        let call = put_at(self.alloc, cursor.number, key, data, PutMode::NoOverwrite);
        done_of(self.give_call(cursor.txn.session, call))
    }

    /// Takes the record out at which the cursor stands, which then stays where it was; on an index, the record of the database. Errors: `NoPosition`, `KeyEmpty`
    /// where the record was deleted before, `Conflict`, `LogFull`, `IdsEnded`, `DiskFault`, `Invalid`, `Memory`.
    pub fn delete_current(&mut self, cursor: &Cursor) -> Result<(), Error>
        ensures calls { Calls D.meaning done_in self.old.environment self.new.environment cursor.now.txn.now.session (Some (Deletes cursor.now.number)) result }
        ensures names { self.new.names ≡ self.old.names }
    {
        let call = Ok(Call::CDel {
            cursor: cursor.number,
        });
        done_of(self.give_call(cursor.txn.session, call))
    }

    /// How many records the key has at which the cursor stands. Errors: `NoPosition`, `KeyEmpty` where the record was deleted, `Conflict`, `Invalid`,
    /// `Memory`.
    pub fn count(&mut self, cursor: &Cursor) -> Result<u64, Error>
        ensures calls { Calls D.meaning count_told self.old.environment self.new.environment cursor.now.txn.now.session (Some (Counts cursor.now.number)) result }
        ensures names { self.new.names ≡ self.old.names }
    {
        let call = Ok(Call::Count {
            cursor: cursor.number,
        });
        counted_of(self.give_call(cursor.txn.session, call))
    }

    /// Closes the cursor, and gives its number back. Errors: `Invalid`, `Memory`; it then stays open until the transaction ends.
    pub fn close_cursor(&mut self, cursor: Cursor) -> Result<(), Error>
        ensures calls { Calls D.meaning done_in self.old.environment self.new.environment cursor.entry.txn.now.session (Some (Closes cursor.entry.number)) result }
        ensures names { self.new.names ≡ self.old.names }
    {
        let Cursor { txn, number } = cursor;
        done_of(self.shut(txn.session, number))
    }
}
