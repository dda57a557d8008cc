//! The nodes of the trees of all databases, as a checkpoint sees them: which are dirty and noted, which of these is logged next, from which LSN on
//! their images lack something, and the roots' images. It stands on `db_tree` for the tree of one database. Upward it promises
//! that the dirty nodes and those above them are noted, and that what is said of each node holds of each node of each tree. It changes no tree but
//! for the notes.
#![tactic(auto)]

pub mod forest;

pub use forest::{count_in, databases_in, is_since_in, least_mark_in, next_in, note_in, roots_in};
