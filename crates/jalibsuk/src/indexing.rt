// Indexes and their handles.
ghost use Rattle.std.specs.Prelude.{◌≡◌, ◌⊎◌, ◌++◌, ◌∷◌, [], Some, Err, IfOk, IfErr, OnErr, IsTrue, length, true, false};
ghost use Rattle.je_order.specs.Words.{is_word};
ghost use Rattle.store_model.specs.Making.{IsSlice, IsWithinLimits};
ghost use Rattle.store_model.specs.declared.call.Call.TheVariants.{CreateIndex as CreatesIndex};
ghost use Rattle.jalibsuk.specs.Named.{IsMade};
ghost use Rattle.jalibsuk.specs.Told.{done_in};
ghost use Rattle.jalibsuk.specs.Methods.{CallsNow};

use crate::answered::done_of;
use crate::named::word;
use crate::settling::give_now;
use crate::{Db, Env, Error, Index};
use je_disk::Disk;
use je_order::Word;
use std::alloc::Global;
use store_model::{Call, Extract, Index as IndexParts, MOST_OFFSET, MOST_SLICE};

// Whether a slice is within its limits.
fn is_slice(offset: u32, length: u32) -> bool
    ensures within { result ≡ true → IsSlice offset length }
    ensures beyond { result ≡ false → IsSlice offset length → ⊥ }
{
    offset <= MOST_OFFSET && 0 < length && length <= MOST_SLICE
}

// Whether an index may have such keys.
fn is_within_limits(extract: Extract) -> bool
    ensures within { result ≡ true → IsWithinLimits extract }
    ensures beyond { result ≡ false → IsWithinLimits extract → ⊥ }
{
    match extract {
        Extract::ByteSlice { offset, length } => is_slice(offset, length),
        Extract::Field {
            number: _,
            separator: _,
        } => true,
    }
}

// Makes an index.
fn create_index(alloc: Global, name: &[u8], primary: &[u8], extract: Extract) -> Result<Call, Error>
    requires name { IsTrue (is_word name.now) }
    requires primary { IsTrue (is_word primary.now) }
    requires limits { IsWithinLimits extract }
    ensures { IsMade (Some (CreatesIndex name.now (record { primary = primary.now; extract = extract }))) result }
{
    let db = word(alloc, name)?;
    let primary = word(alloc, primary)?;
    let index = IndexParts { primary, extract };
    Ok(Call::CreateIndex { db, index })
}

impl<D: Disk + Drop> Env<D> {
    /// Makes an index of a plain database, its primary, and fills it, as a transaction of its own that is synced. From then on it changes with its
    /// primary. `BadName` where one of the two names is none, and `BadIndex` where the slice that is its key is past its limits. Other errors:
    /// `NoDatabase` where the primary is not there or not plain, `NameTaken`, `TooManyDatabases`, `DatabaseInUse`, `LogFull`, `IdsEnded`,
    /// `DiskFault`, `Invalid`, `Memory`.
    pub fn create_index(
        &mut self,
        name: &[u8],
        primary: &[u8],
        extract: Extract,
    ) -> Result<(), Error>
        ensures bad { (is_word name.now ≡ false) ⊎ (is_word primary.now ≡ false) → (result ≡ Err Error.BadName) × (self.new.environment ≡ self.old.environment) }
        ensures beyond { is_word name.now ≡ true → is_word primary.now ≡ true → (IsWithinLimits extract → ⊥) → (result ≡ Err Error.BadIndex) × (self.new.environment ≡ self.old.environment) }
        ensures calls { is_word name.now ≡ true → is_word primary.now ≡ true → IsWithinLimits extract
            → CallsNow D.meaning done_in self.old.environment self.new.environment (Some (CreatesIndex name.now (record { primary = primary.now; extract = extract }))) result }
        ensures names { self.new.names ≡ self.old.names }
    {
        if !Word::is_word(name) {
            return Err(Error::BadName);
        }
        if !Word::is_word(primary) {
            return Err(Error::BadName);
        }
        if !is_within_limits(extract) {
            return Err(Error::BadIndex);
        }
        let call = create_index(self.alloc, name, primary, extract);
        done_of(give_now(&mut self.environment, self.alloc, call))
    }

    /// A handle of the index of that name, for `find`, `open_index_cursor` and `scan_index`. Where there is none its calls are answered `NoDatabase`. Errors: `BadName`, `Memory`.
    pub fn index(&mut self, name: &[u8]) -> Result<Index, Error>
        ensures handle { IfOk result (λ index. (index.number ≡ length self.old.names) × (self.new.names ≡ self.old.names ++ Some name.now ∷ [])) }
        ensures same { OnErr result (self.new.names ≡ self.old.names) }
        ensures bad { is_word name.now ≡ false → result ≡ Err Error.BadName }
        ensures cause { is_word name.now ≡ true → IfErr result (λ e. e ≡ Error.Memory) }
        ensures environment { self.new.environment ≡ self.old.environment }
    {
        let Db { number } = self.db(name)?;
        Ok(Index { number })
    }
}
