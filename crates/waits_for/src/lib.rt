//! Who waits for whom, and whether anyone waits for himself by way of others. It stands on `je_order`,
//! for transaction numbers. Upward it promises that `find_cycle` finds a cycle through a transaction
//! exactly where there is one.
#![tactic(auto)]

pub mod edges;
pub mod search;

pub use edges::Edges;
pub use search::find_cycle;
