//! The lines of a text. `find_byte` finds where a byte first stands, and `cut_line` cuts the first line off; a text's
//! lines are a definition. It stands on nothing, and readers of scripts and dumps stand on it.
#![tactic(auto)]

pub mod cutting;
pub mod lines;

pub use cutting::find_byte;
pub use lines::cut_line;
