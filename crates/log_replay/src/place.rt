// A record's place.
use je_order::Name;

/// A record's place: the number of its database, and its name there.
#[derive(Drop)]
pub(crate) struct Place {
    pub(crate) db: u32,
    pub(crate) name: Name,
}
