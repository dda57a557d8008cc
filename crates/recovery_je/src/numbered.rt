// A database by its number.
use store_model::Kind;

/// A database's number and kind, as the catalog has them.
#[derive(Clone, Copy)]
pub(crate) struct Numbered {
    pub(crate) number: u32,
    pub(crate) kind: Kind,
}
