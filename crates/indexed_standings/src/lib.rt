//! What transactions see of indexes. Where an environment stands so that each transaction keeps up the
//! indexes of the records that it changes, each transaction sees an index as the pairs of the records that it
//! sees of its primary, at each level; and so it stays where one commits. It stands on `index_laws` for lists of changes and on
//! `standing_laws` for the locks, by which no two transactions change the same record.
#![tactic(auto)]

pub mod laws;

pub use laws::{commits_keep_up, seen_indexed};
