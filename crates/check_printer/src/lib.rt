//! What a check comes to, as text: a line for each file and each database, one for each finding, in order, and last
//! how many there are. `put_check` sends the lines. It stands on check_laws and on text_out.
#![tactic(auto)]

pub mod printing;

pub use printing::put_check;
