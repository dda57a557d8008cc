//! What holds of every standing that a run reaches, as long as the disk has not failed: whose the
//! transactions, locks, waits and own changes are. It stands on `je_answers`, which says where each event
//! leaves an environment, and has no code but its laws. Upward it promises that each step of an event
//! keeps what holds.
#![tactic(auto)]

pub mod laws;
