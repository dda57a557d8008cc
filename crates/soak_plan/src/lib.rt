//! The script of a soak: four sessions whose calls are drawn from a seed, with a step of maintenance after each tenth
//! call. `soak` gives the same lines for the same seed, whatever the clock says. It stands on the model's calls and
//! lines alone.
#![tactic(auto)]

mod drawing;
mod drawn_call;
#[cfg(test)]
mod examples;
pub mod laws;
mod round;
mod rounds;
mod soak_state;
pub mod soaking;

pub use soaking::{ROUNDS, SOAK_LINES, soak};
