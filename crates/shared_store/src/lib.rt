//! An open environment that threads share. A call that waits blocks its own thread, a commit comes back when it is durable, and commits that wait
//! together share one sync, which runs while other calls go on. What is behind the lock says of itself that there is a journal of events in
//! which each was answered as the model answers it, and that a crash leaves what this journal allows. It stands on `environment`.
#![tactic(auto)]

mod events;
mod live;
mod reply;
mod store;
mod sync_out;
mod turn;

pub use store::SharedStore;
