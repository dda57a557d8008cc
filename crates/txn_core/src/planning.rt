// What a call on the catalog comes to.
ghost use Rattle.std.specs.Prelude.{ℕ, IfOk};
ghost use Rattle.je_answers.specs.Alone.{Alone};
ghost use Rattle.txn_core.specs.Known.{known_of};
ghost use Rattle.txn_core.specs.Planning.{CanPlan, HasModel, IsCatalogCall, IsPlanned};

use crate::catalog_plan::plan_catalog;
use crate::index_plan::plan_filled;
use crate::planned::Planned;
use record_tree::Records;
use std::alloc::{AllocError, Global};
use store_model::{Call, Totals};

/// What a call on the catalog of a valid environment comes to, which is a transaction of its own, from the committed records
/// of its trees, how much they hold, and the database number allocated last. Room in the log and the last database number
/// are not asked. An index is filled with the pairs of its primary's records, which it goes over. The only error is out of memory.
pub fn plan<T: Records>(
    trees: &T,
    alloc: Global,
    totals: Totals,
    last_db: u32,
    call: &Call,
) -> Result<Planned, AllocError>
    requires can { CanPlan (known_of (T.cells trees.now) totals last_db) }
    requires call { IsCatalogCall call.now }
    ensures { (p : Alone) (session : ℕ) → HasModel (known_of (T.cells trees.now) totals last_db) p
        → IfOk result (IsPlanned (known_of (T.cells trees.now) totals last_db) p session call.now) }
{
    match call {
        Call::List
        | Call::Create { .. }
        | Call::Remove { .. }
        | Call::Rename { .. }
        | Call::Truncate { .. } => plan_catalog(trees, alloc, totals, last_db, call),
        Call::CreateIndex { db, index } => plan_filled(trees, alloc, totals, last_db, db, index),
        _ => unreachable!(),
    }
}
