//! An open environment as methods, for programs that embed the store. A transaction is a linear token: a program that neither commits nor aborts it
//! does not compile. A cursor is a token that borrows its transaction, and a scan is an iterator. The invariant of an environment is of its type, so a
//! user's function carries no clause and no proof; each method's clauses say, on the environment that it is given, all that the store below promises
//! of the call. It stands on `environment`. No method waits for a lock (docs/NOT_YET.md).
#![tactic(auto)]

mod alone;
mod altering;
mod answered;
mod asking;
mod beginning;
mod catalog;
mod checkpointing;
mod cursor;
mod cursor_calls;
mod cursors;
mod db;
mod direction;
mod env;
mod error;
mod giving;
mod index_record;
mod index_scan;
mod indexing;
mod keys;
mod named;
mod not_opened;
mod numbering;
mod opening;
mod options;
mod reading;
mod record;
mod renaming;
mod scan;
mod scanning;
mod seek;
mod settling;
mod stage;
mod syncing;
mod transact;
mod transactions;
mod txn;
mod walk;
mod walking;
mod writing;

pub use cursor::Cursor;
pub use db::{Db, Index};
pub use direction::Direction;
pub use env::Env;
pub use error::Error;
pub use index_record::IndexRecord;
pub use index_scan::IndexScan;
pub use je_disk::Disk;
pub use je_order::{Octets, TxnId};
pub use keys::Keys;
pub use not_opened::NotOpened;
pub use options::Options;
pub use record::Record;
pub use scan::Scan;
pub use seek::Seek;
pub use store_model::{Durability, Extract, Isolation, Kind};
pub use transact::Work;
pub use txn::{Txn, TxnOptions};
