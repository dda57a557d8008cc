//! The catalog: database 0, which keeps one record for each database of the environment. A record's
//! key is the database's name; its data is written and read here, and the calls on the catalog are
//! planned here: from what a view of it tells, the answer, the changes, and the records that each
//! change logs. It stands on the bytes of numbers and on the model of stores, and the log's replay
//! stands on it. Upward it promises that bytes are read exactly where they are a record's, and that
//! plans are the model's answers.
#![tactic(auto)]

pub mod catalog_change;
pub mod catalog_view;
pub mod db_kind;
pub mod db_record;
pub mod found_db;
pub mod planning;

pub use catalog_change::CatalogChange;
pub use catalog_view::CatalogView;
pub use db_kind::DbKind;
pub use db_record::{CATALOG, DbRecord};
pub use found_db::{FoundDb, find_db, index_of, kind_of};
pub use planning::{CatalogPlan, catalog_changes, plan, plan_index};
