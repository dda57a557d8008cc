// What a call changes in a database.
use je_order::{Name, Octets};

/// One change of the records of one database.
#[derive(Drop)]
pub enum RecordChange {
    /// Sets a name to data.
    Set { at: Name, value: Octets },
    /// Takes a name out.
    Unset { at: Name },
}
