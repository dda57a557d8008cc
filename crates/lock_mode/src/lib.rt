//! The lock types and their two rules: which types conflict, and what an owner holds after it asked
//! for more. It stands on nothing. Upward it promises the two tables, each once as a definition that
//! clauses cite, and the laws of them that a lock table lives by, proved over the whole tables. The
//! tables are this project's own.
#![tactic(auto)]

pub mod lock_type;
pub mod rules;

pub use lock_type::LockType;
pub use rules::{conflicts, obey_laws, upgrade};
