// The trait of views of the catalog.
ghost use Rattle.std.specs.Prelude.{◌≡◌, ℕ, List as Items, Option, IfOk, is_some, length};
ghost use Rattle.std.specs.List.{list_any};
ghost use Rattle.store_model.specs.declared.store.Store.{Store as Stored};
ghost use Rattle.store_model.specs.Store.{database_of, names_of};
ghost use Rattle.store_model.specs.Indexes.{is_index_of};
ghost use Rattle.db_catalog.specs.Planning.{IsCatalogOf};
ghost use Rattle.db_catalog.specs.declared.db_record.DbRecord.{DbRecord as Row};

use crate::DbRecord;
use je_order::{List, Word};
use std::alloc::{AllocError, Global};

/// What a plan reads of the catalog: the names of the databases that a caller sees, and their records.
/// The one error of its calls is out of memory.
pub trait CatalogView {
    /// The store that the caller sees.
    ghost seen: { Self → Stored };

    /// The catalog's record of a name.
    ghost record_of: { Self → Items ℕ → Option Row };

    /// There is a record for each database of the store, of its kind, and no other; that of an index has
    /// the number of its primary.
    ghost laws: { (view : Self) → IsCatalogOf (seen view) (record_of view) };

    /// Whether there is a database of that name.
    fn has(&self, alloc: Global, name: &Word) -> Result<bool, AllocError>
        ensures { IfOk result (λ found. found ≡ is_some (database_of name.now (seen self.now))) };

    /// Whether the database of a name has an index.
    fn is_indexed(&self, alloc: Global, name: &Word) -> Result<bool, AllocError>
        ensures { IfOk result (λ found. found ≡ list_any (is_index_of name.now) (seen self.now).databases) };

    /// How many databases there are.
    fn count(&self) -> usize
        ensures { result ≡ length (seen self.now).databases };

    /// The names of all databases, in byte order.
    fn names(&self, alloc: Global) -> Result<List<Word>, AllocError>
        ensures { IfOk result (λ names. names ≡ names_of (seen self.now)) };

    /// The catalog's record of a name.
    fn row(&self, alloc: Global, name: &Word) -> Result<Option<DbRecord>, AllocError>
        ensures { IfOk result (λ found. found ≡ record_of self.now name.now) };
}
