//! The command line of `jedb`: a command, `--home DIR`, and the command's other options. `parse` reads the arguments
//! after the program's name with `clap`, and its contract says that it takes exactly the arguments at which the
//! command parser meets no fault, and what it reads of them. It opens nothing and knows nothing of the
//! store.
#![tactic(auto)]

pub mod arguments;
pub mod command;
pub mod laws;

pub use arguments::parse;
pub use command::{Command, CommandLine, RunSettings};
