// The catalog, as plans read it.
ghost use Rattle.std.specs.Prelude.{◌≡◌, true, length};
ghost use Rattle.std.specs.List.Sorted.{IsStrictlySortedBy-prop};
ghost use Rattle.log_replay.specs.Rows.{is_environment, IsRising};
ghost use Rattle.txn_core.specs.Known.{committed};

use crate::catalog_plan::number_under;
use crate::reading::data_of;
use crate::walking::{has_index, names};
use db_catalog::{CATALOG, CatalogView, DbRecord};
use je_order::{List, Word};
use record_map::SortKey;
use record_tree::Records;
use std::alloc::{AllocError, Global};

/// The committed catalog of an environment's trees, which has so many databases.
#[derive(Drop)]
pub struct CatalogRows<'a, T: Records> {
    pub trees: &'a T,
    pub databases: u64,
    ghost environment: { is_environment (committed (T.cells trees.now)) ≡ true },
    ghost rising: { IsRising (committed (T.cells trees.now) 0) } by { IsStrictlySortedBy-prop _ _ },
    ghost count: { databases ≡ length (committed (T.cells trees.now) 0) },
}

impl<T: Records> CatalogView for CatalogRows<'_, T> {
    ghost use Rattle.log_replay.specs.Rows.{store_of};
    ghost use Rattle.log_replay.specs.Logging.{record_named};
    ghost use Rattle.log_replay.proofs.PlanViews.{catalog_of};
    ghost use Rattle.txn_core.specs.Known.{committed};

    ghost seen = { λ v. store_of (committed (T.cells v.trees.now)) };

    ghost record_of = { λ v. record_named (committed (T.cells v.trees.now)) };

    ghost laws = { λ v. catalog_of (committed (T.cells v.trees.now)) v.environment v.rising };

    fn has(&self, alloc: Global, name: &Word) -> Result<bool, AllocError> {
        let name = SortKey::plain(alloc, name.as_slice())?;
        Ok(data_of(self.trees, CATALOG, &name).is_some())
    }

    fn is_indexed(&self, alloc: Global, name: &Word) -> Result<bool, AllocError> {
        let number = number_under(self.trees, alloc, name)?;
        Ok(has_index(self.trees, number))
    }

    fn count(&self) -> usize {
        self.databases as usize
    }

    fn names(&self, alloc: Global) -> Result<List<Word>, AllocError> {
        names(self.trees, alloc)
    }

    fn row(&self, alloc: Global, name: &Word) -> Result<Option<DbRecord>, AllocError> {
        let name = SortKey::plain(alloc, name.as_slice())?;
        match data_of(self.trees, CATALOG, &name) {
            Some(held) => Ok(DbRecord::from_bytes(held)),
            None => Ok(None),
        }
    }
}
