// The databases that a call is on.
use crate::FoundIndex;
use db_catalog::FoundDb;

/// The database that a call is on; the number of its primary, where it is an index; and the indexes of the
/// database whose records it has, by rising number.
#[derive(Clone, Copy)]
pub struct FoundTarget<'a> {
    pub db: FoundDb,
    pub over: Option<u32>,
    pub indexes: &'a [FoundIndex],
}
