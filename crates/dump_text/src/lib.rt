//! Dumps as text, in the format that Berkeley DB's `db_dump` writes: the pairs of one database, and whether it has sorted
//! duplicates. `parse_dump` reads a dump, and names the first line that is outside the grammar; `put_header`, `put_pair`
//! and `put_end` write one. It stands on texts and byte strings, and knows no trees. What is written is read back.
#![tactic(auto)]

mod dump;
mod dump_err;
mod dump_header;
mod dump_pair;
mod escape;
#[cfg(test)]
mod examples;
pub mod laws;
pub mod parsing;
mod pending_key;
mod unescaped;
mod values;
pub mod writing;

pub use dump::Dump;
pub use dump_err::DumpErr;
pub use dump_pair::DumpPair;
pub use parsing::{MOST_DUMP_LINES, parse_dump};
pub use writing::{put_end, put_header, put_pair};
