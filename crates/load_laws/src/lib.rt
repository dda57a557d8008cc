//! What a load attempts to commit, and what it stores. Contracts without code.
#![tactic(auto)]

pub mod laws;

pub use laws::{loads_attempt_few, loads_come_whole, loads_store_their_pairs};
