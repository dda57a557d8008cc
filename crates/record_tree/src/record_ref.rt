// A committed record, by reference.
use record_map::SortKey;

/// A committed record by its name and its data, which lie in its tree.
#[derive(Clone, Copy)]
pub struct RecordRef<'a> {
    pub name: &'a SortKey,
    pub value: &'a [u8],
}
