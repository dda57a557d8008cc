//! The transactions under way of an environment: who has one and how it was begun, and how much each has
//! changed so far. It stands on `je_answers`, whose lists these are: upward it promises that each call
//! leaves them, and the counts of their own changes, as the standing after the event has them.
#![tactic(auto)]

pub mod active_txns;
pub mod counting;
pub mod marking;
pub mod own_counts;
pub mod owned;

pub use active_txns::ActiveTxns;
pub use counting::{count_set, counted, none_counted};
pub use own_counts::OwnCounts;
