// Handles.

/// A database, for as long as the environment is open: a small number. Once the database is removed its calls are answered `NoDatabase`, also where
/// another one has its name.
#[derive(Clone, Copy, Debug, PartialEq, Eq)]
pub struct Db {
    pub(crate) number: usize,
}

/// An index of a database, as `Db` is a database.
#[derive(Clone, Copy, Debug, PartialEq, Eq)]
pub struct Index {
    pub(crate) number: usize,
}
