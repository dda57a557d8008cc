//! The core of transactions: what a call on the catalog, which is a transaction of its own, comes to, from the committed
//! records of an environment's trees. It stands on the trait `Records` of `record_tree` for the trees, on `db_catalog` for
//! the plans of calls, and on the definitions of `log_replay` for what records mean. A plan changes nothing: it
//! answers, or says what is to be written. Upward it promises that the answer is the model's, and that the changes are those
//! that log the model's. `commit_changes` makes changes as one transaction: all of them are logged and committed, or
//! no record changed, unless the disk fails on the way.
#![tactic(auto)]

mod catalog_plan;
mod catalog_rows;
mod finding;
pub mod found_record;
pub mod held_edge;
mod index_plan;
mod planned;
mod planned_changes;
mod planning;
pub mod reading;
mod transaction;
mod walking;

pub use catalog_plan::number_under;
pub use finding::find;
pub use planned::Planned;
pub use planned_changes::PlannedChanges;
pub use planning::plan;
pub use transaction::{changed_names, commit_changes, commit_names};
