// Databases and their handles.
ghost use Rattle.std.specs.Prelude.{◌≡◌, ◌++◌, ◌∷◌, [], Some, Err, IfOk, IfErr, OnErr, IsTrue, length, true, false};
ghost use Rattle.je_order.specs.Words.{is_word};
ghost use Rattle.store_model.specs.declared.call.Call.TheVariants.{Create as Creates};
ghost use Rattle.jalibsuk.specs.Named.{IsMade};
ghost use Rattle.jalibsuk.specs.Told.{done_in};
ghost use Rattle.jalibsuk.specs.Methods.{CallsNow};

use crate::answered::done_of;
use crate::settling::give_now;
use crate::{Db, Env, Error};
use je_disk::Disk;
use je_order::Word;
use std::alloc::Global;
use store_model::{Call, Kind};

// Makes a database.
fn create(alloc: Global, name: &[u8], kind: Kind) -> Result<Call, Error>
    requires { IsTrue (is_word name.now) }
    ensures { IsMade (Some (Creates name.now kind)) result }
{
    match Word::from_slice(alloc, name) {
        Ok(db) => Ok(Call::Create { db, kind }),
        Err(_) => Err(Error::Memory),
    }
}

// A name as an entry of the handles.
fn entry(alloc: Global, name: &[u8]) -> Result<Option<Word>, Error>
    requires { IsTrue (is_word name.now) }
    ensures value { IfOk result (λ o. o ≡ Some name.now) }
    ensures cause { IfErr result (λ e. e ≡ Error.Memory) }
{
    match Word::from_slice(alloc, name) {
        Ok(name) => Ok(Some(name)),
        Err(_) => Err(Error::Memory),
    }
}

// Gives a name the next handle.
fn add_name(names: &mut Vec<Option<Word>>, entry: Option<Word>) -> Result<Db, Error>
    ensures handle { IfOk result (λ db. (db.number ≡ length names.old.items) × (names.new.items ≡ names.old.items ++ entry ∷ [])) }
    ensures same { OnErr result (names.new.items ≡ names.old.items) }
    ensures cause { IfErr result (λ e. e ≡ Error.Memory) }
{
    let number = names.len();
    match names.push(entry) {
        Ok(()) => Ok(Db { number }),
        Err(_) => Err(Error::Memory),
    }
}

impl<D: Disk + Drop> Env<D> {
    /// Makes a database, as a transaction of its own that is synced. `BadName` where the name is none. Other errors: `NameTaken`,
    /// `TooManyDatabases`, `LogFull`, `IdsEnded`, `DiskFault`, `Invalid`, `Memory`.
    pub fn create_db(&mut self, name: &[u8], kind: Kind) -> Result<(), Error>
        ensures bad { is_word name.now ≡ false → (result ≡ Err Error.BadName) × (self.new.environment ≡ self.old.environment) }
        ensures calls { is_word name.now ≡ true → CallsNow D.meaning done_in self.old.environment self.new.environment (Some (Creates name.now kind)) result }
        ensures names { self.new.names ≡ self.old.names }
    {
        if !Word::is_word(name) {
            return Err(Error::BadName);
        }
        let call = create(self.alloc, name, kind);
        done_of(give_now(&mut self.environment, self.alloc, call))
    }

    /// A handle of the database of that name. Where there is none its calls are answered `NoDatabase`. Errors: `BadName`, `Memory`.
    pub fn db(&mut self, name: &[u8]) -> Result<Db, Error>
        ensures handle { IfOk result (λ db. (db.number ≡ length self.old.names) × (self.new.names ≡ self.old.names ++ Some name.now ∷ [])) }
        ensures same { OnErr result (self.new.names ≡ self.old.names) }
        ensures bad { is_word name.now ≡ false → result ≡ Err Error.BadName }
        ensures cause { is_word name.now ≡ true → IfErr result (λ e. e ≡ Error.Memory) }
        ensures environment { self.new.environment ≡ self.old.environment }
    {
        if !Word::is_word(name) {
            return Err(Error::BadName);
        }
        let entry = entry(self.alloc, name)?;
        add_name(&mut self.names, entry)
    }
}
