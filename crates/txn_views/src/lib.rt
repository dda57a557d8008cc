//! What transactions under way see of the records of trees. A cell has what is committed and the change of the one
//! transaction that changed it, so a transaction sees its own changes over what is committed, and at read uncommitted
//! anybody's. `plan_target` plans a call on the records of a database as its transaction sees them, where its cursor stands:
//! its answer, its changes there and in the indexes, the locks that it needs, and where the cursor then stands; through an
//! index it changes the records of its primary. It stands on the trait `Records` for trees, on `cursor_je` for plans and needs,
//! and on `txn_core` for how records are read. Upward it promises that answer, changes and needs are the model's on the
//! records that are seen, and the laws that what is seen is the model's view and how names go on having changes.
#![tactic(auto)]

mod db_change;
mod found_target;
mod indexing;
mod laws;
mod outcome_plan;
mod reading;
mod target_plan;
mod through;
mod txn_rows;
mod viewer;

pub use db_change::DbChange;
pub use found_target::FoundTarget;
pub use index_map::FoundIndex;
pub use laws::{
    changes_are_right, drops_leave_writes, ends_leave_writes, free_names_may_be_written,
    nobody_writes, none_is_last, outcomes_are_models, plans_are_models, views_are_seen,
    writes_are_own,
};
pub use outcome_plan::OutcomePlan;
pub use target_plan::TargetPlan;
pub use through::{plan_outcome, plan_target};
