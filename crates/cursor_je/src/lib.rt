//! What a call on the records of one database comes to. `plan` asks a view of the database for the few
//! records that the call is about, and gives the answer, the changes and where the cursor then stands;
//! `read_needs` and `push_write` ask it for the occupied names that the call passes, and give the locks that it needs;
//! `refusal` says what a database of its kind refuses. It stands on `store_model` alone and knows no
//! tree and no log: these are behind the traits `View` and `Names`, which the caller implements. Upward it
//! promises that all of these are the model's, by equation. Names, keys and data are borrowed on the way, and
//! copied only into the answer, the changes, the place and the needs.
#![tactic(auto)]

mod concluding;
#[cfg(test)]
mod examples;
#[cfg(test)]
mod list_view;
pub mod looking;
pub mod name_edge;
pub mod name_ref;
pub mod names;
pub mod needing;
mod passing;
pub mod planned;
pub mod planning;
pub mod reach;
pub mod read_part;
pub mod record_ref;
pub mod refusing;
#[cfg(test)]
mod searching;
mod taking;
pub mod view;

pub use name_edge::NameEdge;
pub use name_ref::NameRef;
pub use names::Names;
pub use planned::Planned;
pub use planning::plan;
pub use record_ref::RecordRef;
pub use refusing::refusal;
pub use view::View;
