//! The indexes of an environment by the numbers of their databases. It stands on the catalog's records, and is kept beside them: it is
//! made of all of them at opening, takes an index more when one is created, and loses one that is removed. Upward it promises that
//! a look at it gives what the catalog says: the primary of an index, and the indexes of a primary by rising number, which are those of
//! the store by its databases' numbers.
#![tactic(auto)]

mod found_index;
mod index_map;
mod laws;
mod lists;
mod sorted;

pub use found_index::FoundIndex;
pub use index_map::IndexMap;
pub use laws::indexes_are_found;
