// Removing, renaming and emptying databases.
ghost use Rattle.std.specs.Prelude.{◌≡◌, ◌⊎◌, None, Some, Err, IfOk, OnErr, IsTrue, true, false};
ghost use Rattle.je_order.specs.Words.{is_word};
ghost use Rattle.store_model.specs.declared.call.Call.TheVariants.{Remove as Removes, Rename as Renames, Truncate as Truncates};
ghost use Rattle.jalibsuk.specs.Named.{IsMade, names_after};
ghost use Rattle.jalibsuk.specs.Told.{done_in};
ghost use Rattle.jalibsuk.specs.Methods.{CallsNow};

use crate::answered::done_of;
use crate::named::word;
use crate::renaming::{give_renaming, names_after};
use crate::settling::give_now;
use crate::{Env, Error};
use je_disk::Disk;
use je_order::Word;
use std::alloc::{AllocError, Global};
use store_model::Call;

// Takes a database out.
fn remove(alloc: Global, name: &[u8]) -> Result<Call, Error>
    requires { IsTrue (is_word name.now) }
    ensures { IsMade (Some (Removes name.now)) result }
{
    let db = word(alloc, name)?;
    Ok(Call::Remove { db })
}

// Gives a database another name.
fn rename(alloc: Global, name: &[u8], to: &[u8]) -> Result<Call, Error>
    requires name { IsTrue (is_word name.now) }
    requires to { IsTrue (is_word to.now) }
    ensures { IsMade (Some (Renames name.now to.now)) result }
{
    let db = word(alloc, name)?;
    let to = word(alloc, to)?;
    Ok(Call::Rename { db, to })
}

// Takes all records of a database out.
fn truncate(alloc: Global, name: &[u8]) -> Result<Call, Error>
    requires { IsTrue (is_word name.now) }
    ensures { IsMade (Some (Truncates name.now)) result }
{
    let db = word(alloc, name)?;
    Ok(Call::Truncate { db })
}

// The names of the handles once a database has another name.
fn names_renamed(
    alloc: Global,
    names: &[Option<Word>],
    name: &[u8],
    to: &[u8],
) -> Result<Vec<Option<Word>>, AllocError>
    requires { IsTrue (is_word to.now) }
    ensures { IfOk result (λ after. after.items ≡ names_after name.now (Some to.now) names.now) }
{
    let to = Some(Word::from_slice(alloc, to)?);
    names_after(alloc, names, name, &to)
}

impl<D: Disk + Drop> Env<D> {
    /// Takes the database of that name out, with its records, as a transaction of its own that is synced. Its handles are answered `NoDatabase` from
    /// then on, also where another database has its name later. `BadName` where the name is none. Other errors: `NoDatabase`, `HasIndex`,
    /// `DatabaseInUse`, `LogFull`, `IdsEnded`, `DiskFault`, `Invalid`, `Memory`.
    pub fn remove_db(&mut self, name: &[u8]) -> Result<(), Error>
        ensures bad { is_word name.now ≡ false → (result ≡ Err Error.BadName) × (self.new.environment ≡ self.old.environment) }
        ensures calls { is_word name.now ≡ true → CallsNow D.meaning done_in self.old.environment self.new.environment (Some (Removes name.now)) result }
        ensures names { IfOk result (λ u. self.new.names ≡ names_after name.now None self.old.names) }
        ensures same { OnErr result (self.new.names ≡ self.old.names) }
    {
        if !Word::is_word(name) {
            return Err(Error::BadName);
        }
        let Ok(after) = names_after(self.alloc, self.names.as_slice(), name, &None) else {
            return Err(Error::Memory);
        };
        let call = remove(self.alloc, name);
        give_renaming(
            &mut self.environment,
            self.alloc,
            call,
            &mut self.names,
            after,
        )
    }

    /// Gives a database another name, as a transaction of its own that is synced. Its handles are of it as before, and its indexes too. `BadName`
    /// where one of the two is none. Other errors: `NoDatabase`, `NameTaken`, `DatabaseInUse`, `LogFull`, `IdsEnded`, `DiskFault`, `Invalid`,
    /// `Memory`.
    pub fn rename_db(&mut self, name: &[u8], to: &[u8]) -> Result<(), Error>
        ensures bad { (is_word name.now ≡ false) ⊎ (is_word to.now ≡ false) → (result ≡ Err Error.BadName) × (self.new.environment ≡ self.old.environment) }
        ensures calls { is_word name.now ≡ true → is_word to.now ≡ true → CallsNow D.meaning done_in self.old.environment self.new.environment (Some (Renames name.now to.now)) result }
        ensures names { IfOk result (λ u. self.new.names ≡ names_after name.now (Some to.now) self.old.names) }
        ensures same { OnErr result (self.new.names ≡ self.old.names) }
    {
        if !Word::is_word(name) {
            return Err(Error::BadName);
        }
        if !Word::is_word(to) {
            return Err(Error::BadName);
        }
        let Ok(after) = names_renamed(self.alloc, self.names.as_slice(), name, to) else {
            return Err(Error::Memory);
        };
        let call = rename(self.alloc, name, to);
        give_renaming(
            &mut self.environment,
            self.alloc,
            call,
            &mut self.names,
            after,
        )
    }

    /// Takes all records of a database out, as a transaction of its own that is synced. `BadName` where the name is none. Other errors: `NoDatabase`,
    /// `HasIndex`, `ReadOnlyIndex`, `DatabaseInUse`, `LogFull`, `IdsEnded`, `DiskFault`, `Invalid`, `Memory`.
    pub fn truncate_db(&mut self, name: &[u8]) -> Result<(), Error>
        ensures bad { is_word name.now ≡ false → (result ≡ Err Error.BadName) × (self.new.environment ≡ self.old.environment) }
        ensures calls { is_word name.now ≡ true → CallsNow D.meaning done_in self.old.environment self.new.environment (Some (Truncates name.now)) result }
        ensures names { self.new.names ≡ self.old.names }
    {
        if !Word::is_word(name) {
            return Err(Error::BadName);
        }
        let call = truncate(self.alloc, name);
        done_of(give_now(&mut self.environment, self.alloc, call))
    }
}
