// Records that the examples lock.
use je_order::{Bound, Name, Octets};
use lock_table::RecordId;
use std::alloc::{AllocError, Global};

/// The record of this key in database 1.
pub fn record(alloc: Global, key: u8) -> Result<RecordId, AllocError> {
    let key = Octets::from_slice(alloc, &[key])?;
    let name = Name {
        key,
        dup: Octets::new(alloc),
    };
    Ok(RecordId {
        db: 1,
        at: Bound::At(name),
    })
}
