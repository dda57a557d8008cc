//! A dump as the lines of a script that load it: one session makes the database where that is asked for, begins a
//! transaction, puts each pair, and commits. It stands on the dump and on the model's calls and lines alone.
#![tactic(auto)]

mod load_lines;

pub use load_lines::lines_of_dump;
