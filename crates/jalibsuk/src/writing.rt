// Writes in a transaction.
ghost use Rattle.std.specs.Prelude.{◌≡◌, option_map};
ghost use Rattle.store_model.specs.declared.call.Call.TheVariants.{Delete as Deletes, Put as Puts};
ghost use Rattle.store_model.specs.declared.put_mode.PutMode.TheVariants.{Overwrite, NoOverwrite, NoDupData};
ghost use Rattle.jalibsuk.specs.Named.{name_of_handle};
ghost use Rattle.jalibsuk.specs.Told.{deleted_in, done_in};
ghost use Rattle.jalibsuk.specs.Methods.{Calls};

use crate::answered::{deleted_of, done_of};
use crate::asking::give;
use crate::named::{delete, put};
use crate::{Db, Env, Error, Txn};
use je_disk::Disk;
use store_model::PutMode;

impl<D: Disk + Drop> Env<D> {
    /// Sets a key's data; in a database of sorted duplicates it adds the pair. Errors: `Conflict`, `NoDatabase`, `TooLong`, `LogFull`, `IdsEnded`,
    /// `DiskFault`, `Invalid`, `Memory`.
    pub fn put(&mut self, txn: &Txn, db: Db, key: &[u8], data: &[u8]) -> Result<(), Error>
        ensures calls { Calls D.meaning done_in self.old.environment self.new.environment txn.now.session (option_map (λ n. Puts n key.now «data».now Overwrite) (name_of_handle db.number self.old.names)) result }
        ensures names { self.new.names ≡ self.old.names }
    {
        let call = put(
            self.alloc,
            self.names.as_slice(),
            db.number,
            key,
            data,
            PutMode::Overwrite,
        );
        done_of(give(&mut self.environment, self.alloc, txn.session, call))
    }

    /// Sets the data of a key that has no record, else `KeyExists`. Other errors as `put`.
    pub fn insert(&mut self, txn: &Txn, db: Db, key: &[u8], data: &[u8]) -> Result<(), Error>
        ensures calls { Calls D.meaning done_in self.old.environment self.new.environment txn.now.session (option_map (λ n. Puts n key.now «data».now NoOverwrite) (name_of_handle db.number self.old.names)) result }
        ensures names { self.new.names ≡ self.old.names }
    {
        let call = put(
            self.alloc,
            self.names.as_slice(),
            db.number,
            key,
            data,
            PutMode::NoOverwrite,
        );
        done_of(give(&mut self.environment, self.alloc, txn.session, call))
    }

    /// Adds a pair that is not there to a database of sorted duplicates, else `KeyExists`; in another one `OnlyOnDuplicates`. Other errors as
    /// `put`.
    pub fn insert_pair(&mut self, txn: &Txn, db: Db, key: &[u8], data: &[u8]) -> Result<(), Error>
        ensures calls { Calls D.meaning done_in self.old.environment self.new.environment txn.now.session (option_map (λ n. Puts n key.now «data».now NoDupData) (name_of_handle db.number self.old.names)) result }
        ensures names { self.new.names ≡ self.old.names }
    {
        let call = put(
            self.alloc,
            self.names.as_slice(),
            db.number,
            key,
            data,
            PutMode::NoDupData,
        );
        done_of(give(&mut self.environment, self.alloc, txn.session, call))
    }

    /// Takes all records of a key out, and says whether there was one. Errors as `put`.
    pub fn delete(&mut self, txn: &Txn, db: Db, key: &[u8]) -> Result<bool, Error>
        ensures calls { Calls D.meaning deleted_in self.old.environment self.new.environment txn.now.session (option_map (λ n. Deletes n key.now) (name_of_handle db.number self.old.names)) result }
        ensures names { self.new.names ≡ self.old.names }
    {
        let call = delete(self.alloc, self.names.as_slice(), db.number, key);
        deleted_of(give(&mut self.environment, self.alloc, txn.session, call))
    }
}
