// What a change of the catalog changes in what is known of databases.
use je_order::Word;

/// What a change of the catalog changes in the names and the indexes that are known, with the memory that it takes.
#[derive(Drop)]
pub(crate) struct Held {
    // The number of a new database, which has its name already.
    pub(crate) made: Option<u32>,
    // The number of one that goes.
    pub(crate) gone: Option<u32>,
    // The number of one that gets another name.
    pub(crate) renamed: Option<(u32, Word)>,
}
