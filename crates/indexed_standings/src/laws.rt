// What transactions see of indexes.
ghost use Rattle.indexed_standings.specs.Indexed.{SeenIndexed, CommitsKeepUp};

/// A transaction sees each index as the pairs of what it sees of its primary, at read uncommitted too.
pub fn seen_indexed()
    ensures { SeenIndexed }
{}

/// A transaction commits its own changes and ends: the indexes of the store have the pairs of the records
/// then, and each other transaction goes on to keep them up.
pub fn commits_keep_up()
    ensures { CommitsKeepUp }
{}
