// The types of locks.

/// What a lock is for. `Read` and `Write` are for a record. The range types are for the record and
/// the gap before it: they keep new records out of that gap. `RangeInsert` asks whether a new record
/// may come before this one; it is tested and never held.
#[derive(Clone, Copy, Debug, PartialEq, Eq)]
pub enum LockType {
    Read,
    Write,
    RangeRead,
    RangeWrite,
    RangeInsert,
}
