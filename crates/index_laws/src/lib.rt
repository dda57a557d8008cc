//! What holds of indexes where transactions change the records of their primaries. Each transaction has own
//! changes in a primary and own changes in its index; no two change the same record. The laws say that
//! with both the index has the pairs of the records: as a call adds changes, as another transaction
//! commits, and with the own changes of all. They stand on the definitions of `store_model` alone.
#![tactic(auto)]

pub mod laws;

pub use laws::{all_keep_up, calls_keep_up, others_keep_up};
