// Reads in a transaction.
ghost use Rattle.std.specs.Prelude.{◌≡◌, option_map, true, false};
ghost use Rattle.store_model.specs.declared.call.Call.TheVariants.{Get as Gets, GetBoth as GetsBoth};
ghost use Rattle.jalibsuk.specs.Named.{name_of_handle};
ghost use Rattle.jalibsuk.specs.Told.{record_told};
ghost use Rattle.jalibsuk.specs.Methods.{Calls};

use crate::answered::found_of;
use crate::asking::give;
use crate::named::{get, get_both};
use crate::{Db, Env, Error, Index, Record, Txn};
use je_disk::Disk;

impl<D: Disk + Drop> Env<D> {
    /// The first record of a key as the transaction sees it, or none. Errors: `Conflict`, `NoDatabase`, `TooLong`, `Invalid`, `Memory`.
    pub fn get(&mut self, txn: &Txn, db: Db, key: &[u8]) -> Result<Option<Record>, Error>
        ensures calls { Calls D.meaning record_told self.old.environment self.new.environment txn.now.session (option_map (λ n. Gets n key.now false) (name_of_handle db.number self.old.names)) result }
        ensures names { self.new.names ≡ self.old.names }
    {
        let call = get(self.alloc, self.names.as_slice(), db.number, key, false);
        found_of(give(&mut self.environment, self.alloc, txn.session, call))
    }

    /// The same, to write the record then: it locks it as a write does.
    pub fn get_for_update(&mut self, txn: &Txn, db: Db, key: &[u8]) -> Result<Option<Record>, Error>
        ensures calls { Calls D.meaning record_told self.old.environment self.new.environment txn.now.session (option_map (λ n. Gets n key.now true) (name_of_handle db.number self.old.names)) result }
        ensures names { self.new.names ≡ self.old.names }
    {
        let call = get(self.alloc, self.names.as_slice(), db.number, key, true);
        found_of(give(&mut self.environment, self.alloc, txn.session, call))
    }

    /// The record of a key and data, or none. Errors as `get`.
    pub fn get_both(
        &mut self,
        txn: &Txn,
        db: Db,
        key: &[u8],
        data: &[u8],
    ) -> Result<Option<Record>, Error>
        ensures calls { Calls D.meaning record_told self.old.environment self.new.environment txn.now.session (option_map (λ n. GetsBoth n key.now «data».now false) (name_of_handle db.number self.old.names)) result }
        ensures names { self.new.names ≡ self.old.names }
    {
        let call = get_both(self.alloc, self.names.as_slice(), db.number, key, data);
        found_of(give(&mut self.environment, self.alloc, txn.session, call))
    }

    /// The first record that an index finds under a key, with the record's own key, or none. Errors as `get`.
    pub fn find(&mut self, txn: &Txn, index: Index, key: &[u8]) -> Result<Option<Record>, Error>
        ensures calls { Calls D.meaning record_told self.old.environment self.new.environment txn.now.session (option_map (λ n. Gets n key.now false) (name_of_handle index.number self.old.names)) result }
        ensures names { self.new.names ≡ self.old.names }
    {
        let call = get(self.alloc, self.names.as_slice(), index.number, key, false);
        found_of(give(&mut self.environment, self.alloc, txn.session, call))
    }
}
