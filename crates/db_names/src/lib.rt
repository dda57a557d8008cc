//! The names of an environment's databases by their numbers. It stands on the catalog's records, and is kept beside them: it is made of
//! all of them at opening, and changes with each change of the catalog. Upward it promises that a look at it gives the name that the
//! catalog has for a number.
#![tactic(auto)]

mod db_names;

pub use db_names::DbNames;
