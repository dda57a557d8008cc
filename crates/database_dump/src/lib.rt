//! A database in memory as a dump: a walk over its records in name order, each sent as a pair. It stands on the trees of an
//! environment and on the text of dumps, and takes no memory.
#![tactic(auto)]

mod putting;

pub use putting::put_database;
