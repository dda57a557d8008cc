// Reads and writes that are transactions of their own.
ghost use Rattle.std.specs.Prelude.{◌≡◌, option_map, false};
ghost use Rattle.store_model.specs.declared.call.Call.TheVariants.{Delete as Deletes, Get as Gets, GetBoth as GetsBoth, Put as Puts};
ghost use Rattle.store_model.specs.declared.put_mode.PutMode.TheVariants.{Overwrite, NoOverwrite};
ghost use Rattle.jalibsuk.specs.Named.{name_of_handle};
ghost use Rattle.jalibsuk.specs.Told.{deleted_in, done_in, record_told};
ghost use Rattle.jalibsuk.specs.Methods.{CallsNow};

use crate::answered::{deleted_of, done_of, found_of};
use crate::named::{delete, get, get_both, put};
use crate::settling::give_now;
use crate::{Db, Env, Error, Record};
use je_disk::Disk;
use store_model::PutMode;

impl<D: Disk + Drop> Env<D> {
    /// `get` outside a transaction: the first record of a key that is committed, or none. Errors as `get`; `Conflict` where an open transaction has
    /// a lock in its way.
    pub fn get_now(&mut self, db: Db, key: &[u8]) -> Result<Option<Record>, Error>
        ensures calls { CallsNow D.meaning record_told self.old.environment self.new.environment (option_map (λ n. Gets n key.now false) (name_of_handle db.number self.old.names)) result }
        ensures names { self.new.names ≡ self.old.names }
    {
        let call = get(self.alloc, self.names.as_slice(), db.number, key, false);
        found_of(give_now(&mut self.environment, self.alloc, call))
    }

    /// `get_both` outside a transaction. Errors as `get_now`.
    pub fn get_both_now(&mut self, db: Db, key: &[u8], data: &[u8]) -> Result<Option<Record>, Error>
        ensures calls { CallsNow D.meaning record_told self.old.environment self.new.environment (option_map (λ n. GetsBoth n key.now «data».now false) (name_of_handle db.number self.old.names)) result }
        ensures names { self.new.names ≡ self.old.names }
    {
        let call = get_both(self.alloc, self.names.as_slice(), db.number, key, data);
        found_of(give_now(&mut self.environment, self.alloc, call))
    }

    /// `put` as a transaction of its own that is synced: once it returns, the record is durable. Errors as `put`; `Conflict` where an open
    /// transaction has a lock in its way.
    pub fn put_now(&mut self, db: Db, key: &[u8], data: &[u8]) -> Result<(), Error>
        ensures calls { CallsNow D.meaning done_in self.old.environment self.new.environment (option_map (λ n. Puts n key.now «data».now Overwrite) (name_of_handle db.number self.old.names)) result }
        ensures names { self.new.names ≡ self.old.names }
    {
        let call = put(
            self.alloc,
            self.names.as_slice(),
            db.number,
            key,
            data,
            PutMode::Overwrite,
        );
        done_of(give_now(&mut self.environment, self.alloc, call))
    }

    /// `insert` as a transaction of its own that is synced. Errors as `insert` and `put_now`.
    pub fn insert_now(&mut self, db: Db, key: &[u8], data: &[u8]) -> Result<(), Error>
        ensures calls { CallsNow D.meaning done_in self.old.environment self.new.environment (option_map (λ n. Puts n key.now «data».now NoOverwrite) (name_of_handle db.number self.old.names)) result }
        ensures names { self.new.names ≡ self.old.names }
    {
        let call = put(
            self.alloc,
            self.names.as_slice(),
            db.number,
            key,
            data,
            PutMode::NoOverwrite,
        );
        done_of(give_now(&mut self.environment, self.alloc, call))
    }

    /// `delete` as a transaction of its own that is synced. Errors as `put_now`.
    pub fn delete_now(&mut self, db: Db, key: &[u8]) -> Result<bool, Error>
        ensures calls { CallsNow D.meaning deleted_in self.old.environment self.new.environment (option_map (λ n. Deletes n key.now) (name_of_handle db.number self.old.names)) result }
        ensures names { self.new.names ≡ self.old.names }
    {
        let call = delete(self.alloc, self.names.as_slice(), db.number, key);
        deleted_of(give_now(&mut self.environment, self.alloc, call))
    }
}
