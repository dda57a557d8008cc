//! What an index has of a database's records: the key of a record, the sorted pairs of all, and what changes in them with a record. It stands on the model's definitions
//! alone, and reads no tree: callers hand in the data of a record before and after its change. Upward it promises that keys
//! and changes are the model's.
#![tactic(auto)]

mod changing;
#[cfg(test)]
mod examples;
mod extracting;
mod key_pair;
mod pairs;

pub use changing::index_changes;
pub use extracting::{extract, key_in};
pub use key_pair::KeyPair;
pub use pairs::{push_pair, sort_pairs};
