//! A run of a script's lines over an open environment: each line is given, what its commit waits for is
//! done at once, the calls that waited and may go on do, and then comes the next line; at the end each
//! session is ended. A line is a session's call or a step of maintenance, before which its sync is done. A
//! run may pause at the first call that is refused, as a load does. It stands on `environment` for what a
//! call comes to, and on `load_laws` for what a refused call is, and keeps the journal of all events. Upward
//! it promises that the journal answers as the model, in this order, and which lines it has.
#![tactic(auto)]

mod maintaining;
mod pause;
mod recorded;
mod running;

pub use pause::{Pause, is_refused};
pub use recorded::Recorded;
pub use running::{Running, run, run_until};
