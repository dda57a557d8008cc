// Where a cursor stands.
use je_order::Name;

/// An open cursor of a session: its number, the number of its database, and the record at which it
/// stands, if any.
#[derive(Drop)]
pub struct Place {
    pub cursor: u8,
    pub db: u32,
    pub at: Option<Name>,
}
