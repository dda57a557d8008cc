//! The values that everything above speaks of: byte strings, words, lists, transaction numbers and
//! record names, with the order of keys. It stands on nothing. A contract sees `Octets`, `Word` and
//! `List<T>` as plain lists, so that `≡` between two values that hold them says what it should; a
//! clone of any type here is equal to its source.
#![tactic(auto)]

pub mod bound;
pub mod exact;
pub mod limits;
pub mod list;
pub mod name;
pub mod octets;
pub mod order;
pub mod padding;
pub mod txn_id;
pub mod word;

pub use bound::Bound;
pub use exact::{Exact, copy_of};
pub use limits::{KEY_LIMIT, SLOT_LIMIT, VALUE_LIMIT};
pub use list::List;
pub use name::Name;
pub use octets::Octets;
pub use order::{cmp_bytes, cmp_name, cmp_word};
pub use padding::padded;
pub use txn_id::TxnId;
pub use word::Word;
