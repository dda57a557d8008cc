//! Evaluation of a call on the records of one database, as a plain program for tests on small inputs:
//! where the call looks, what it takes there, and what it answers and changes, with all records walked
//! and copied. It stands on `store_model`, whose definitions it follows one by one, and no code of the
//! product stands on it. Upward it promises that `eval_records` is `evaluation`, by equation, so that a
//! test may compare any faster body with it, and gives its steps to the plain programs above.
#![tactic(auto)]

mod concluding;
pub mod edge;
pub mod evaluation;
mod filtering;
pub mod looking;
pub mod records;
mod seeing;

pub use concluding::conclude;
pub use edge::{NameEdge, cmp_pair, pair_name, proper_name};
pub use evaluation::Evaluation;
pub use filtering::{copies_where, with_item};
pub use looking::{Looking, TakeWay, look_of};
pub use records::{early_of, eval_records};
pub use seeing::{has_record, is_name_within, seen};
