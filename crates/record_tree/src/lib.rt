//! What the parts above ask of the trees of an environment, as traits. It stands on `record_map` for names and cells and on
//! `log_entry` for what the log gets, and has no code. A contract sees the cells of each database, the names
//! with a record or a change alone, and two relations that an implementation names: that the log grew by some entries,
//! and that it failed on the way. So what stands above a trait knows neither log nor nodes, and is proved beside its implementation.
#![tactic(auto)]

pub mod checkpoint_end;
pub mod lacks;
pub mod load_err;
pub mod loads;
pub mod node_place;
pub mod nodes;
pub mod record_ref;
pub mod records;
pub mod stored_record;
pub mod tree_change;
pub mod tree_err;
pub mod tree_name;

pub use checkpoint_end::CheckpointEnd;
pub use lacks::Lacks;
pub use load_err::LoadErr;
pub use loads::Loads;
pub use node_place::NodePlace;
pub use nodes::Nodes;
pub use record_ref::RecordRef;
pub use records::Records;
pub use stored_record::StoredRecord;
pub use tree_change::TreeChange;
pub use tree_err::TreeErr;
pub use tree_name::TreeName;
