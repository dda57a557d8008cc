//! A store as a plain program, for tests on small inputs: the store after changes, and what a call outside
//! a transaction answers and leaves, walked and copied as whole lists. It stands on `store_model`, whose
//! definitions it follows one by one, and on `record_eval` for the records of one database; no code of
//! the product stands on it. Upward it promises that `eval` is evaluation and that `pairs_after` and
//! `after_changes` are the model's, by equation, so that a test may compare any faster body with it.
#![tactic(auto)]

pub mod calls;
mod catalog;
mod changing;
mod indexing;

pub use calls::eval;
pub use changing::{after_changes, pairs_after};
