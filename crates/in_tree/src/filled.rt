// A new database's tree, with the changes of its first names.
use db_tree::DbTree;
use log_entry::Entry;

/// A tree that is in no forest yet, as it is once its changes are logged, each behind the images that its name's slot takes, in a log that
/// ends where it was made for.
#[derive(Drop)]
pub(crate) struct Filled {
    /// The tree.
    pub(crate) tree: DbTree,
    /// The node number that was allocated last, or the greatest number of 64 bits where it is above that.
    pub(crate) last: u64,
    /// For each change the images that are logged before it.
    pub(crate) images: Vec<Vec<Entry>>,
}
