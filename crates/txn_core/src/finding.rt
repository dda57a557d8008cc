// The database of a name.
ghost use Rattle.std.specs.Prelude.{◌≡◌, true, length, IfOk};
ghost use Rattle.store_model.specs.Store.{database_of};
ghost use Rattle.log_replay.specs.Rows.{is_environment, IsRising, store_of};
ghost use Rattle.log_replay.specs.Logging.{record_named};
ghost use Rattle.db_catalog.specs.Planning.{found_in, IsFoundAs};
ghost use Rattle.txn_core.specs.Known.{committed};

use crate::catalog_rows::CatalogRows;
use db_catalog::{FoundDb, find_db};
use je_order::Word;
use record_tree::Records;
use std::alloc::{AllocError, Global};

/// The number and the kind of the database of a name, where the catalog has so many. The only error is out of
/// memory.
pub fn find<T: Records>(
    trees: &T,
    alloc: Global,
    databases: u64,
    db: &Word,
) -> Result<Option<FoundDb>, AllocError>
    requires environment { is_environment (committed (T.cells trees.now)) ≡ true }
    requires rising { IsRising (committed (T.cells trees.now) 0) }
    requires count { databases ≡ length (committed (T.cells trees.now) 0) }
    ensures exact { IfOk result (λ found. found ≡ found_in (record_named (committed (T.cells trees.now)) db.now)) }
    ensures seen { IfOk result (λ found. IsFoundAs (database_of db.now (store_of (committed (T.cells trees.now)))) found) }
{
    let catalog = CatalogRows { trees, databases };
    find_db(alloc, &catalog, db)
}
