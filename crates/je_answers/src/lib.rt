//! What an environment may answer: where it stands between two events, in which order refusals go, what
//! each event may answer and where it leaves the environment, and what a journal of events has
//! committed. It stands on `store_model` for evaluation and on the lock crates for their lists. It has no
//! code but the types of which the standing's lists are made. Upward it promises laws of journals: one
//! more event, and that the committed transactions make the store.
#![tactic(auto)]

pub mod active;
pub mod laws;
pub mod wait;

pub use active::Active;
pub use laws::{calls_stay_alone, commits_make_the_store, journals_go_on};
pub use wait::Wait;
