//! The store as a plain model of lists, and the types that calls, answers and the journal are made
//! of: databases of both kinds, transactions, cursors and checkpoints. Its definitions say what a store
//! is, what a call reads, answers and changes (`evaluation`), and which locks it needs. It has no code
//! but the types and the laws that stores stay right and that indexes keep up with their primaries.
//! Nothing here knows of files, trees or the lock table. Calls, answers and events of transactions,
//! cursors and checkpoints are here before the environment does them.
#![tactic(auto)]

pub mod act;
pub mod answer;
pub mod call;
pub mod change;
pub mod durability;
pub mod event;
pub mod extract;
pub mod index;
pub mod isolation;
pub mod kind;
pub mod laws;
pub mod lock_target;
pub mod motion;
pub mod need;
pub mod place;
pub mod plan;
pub mod put_mode;
pub mod record_change;
pub mod step;
pub mod store;
pub mod totals;
pub mod victim;

pub use act::Act;
pub use answer::{Answer, Fault};
pub use call::Call;
pub use change::Change;
pub use durability::Durability;
pub use event::Event;
pub use extract::{Extract, MOST_OFFSET, MOST_SLICE};
pub use index::Index;
pub use isolation::Isolation;
pub use kind::Kind;
pub use laws::{indexes_keep_up, stores_stay_right};
pub use lock_target::LockTarget;
pub use motion::Motion;
pub use need::Need;
pub use place::Place;
pub use plan::{RunPlan, ScriptLine};
pub use put_mode::PutMode;
pub use record_change::RecordChange;
pub use step::Step;
pub use store::{DUP_LIMIT, Database, LAST_DATABASE, LAST_TXN, MOST_DATABASES, Store};
pub use totals::Totals;
pub use victim::Victim;
