//! The program: it reads its arguments and does what their command asks for: it opens the environment over a disk, runs
//! a script's lines in order, and writes the report; it does so with the script of a seed; it opens the environment and
//! writes a database as a dump, or how much of each file is live, or puts the pairs of a dump that it read into a database; or it prints the
//! log, or all that is wrong with it. `run_je` is the public top call; its contract is the store's theorem.
//! It stands on `environment`, and on `script_run` for the run of the lines, on `recovery_je` where files are checked and counted, on
//! `command_line`, `script_text`, `soak_plan`, `database_dump`, `dump_text`, `load_run`, `log_printer`, `check_printer` and `use_printer` for what it
//! reads and writes, and `jedb` only hands it the real disk, input and output.
#![tactic(auto)]

mod cause;
mod dumping;
mod ending;
mod fault_line;
mod home_folder;
mod loading;
mod looking;
mod output;
mod print_log;
mod program;
mod reading;
mod request;
mod resting;
mod run_result;
mod stat;
mod text;
mod unprinted;
mod verify;

pub use cause::Cause;
pub use home_folder::home;
pub use program::{Ended, run_je};
