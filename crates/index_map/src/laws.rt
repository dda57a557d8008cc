// What holds of the indexes of all stores.
ghost use Rattle.index_map.specs.Laws.{IndexesAreFound};

/// What the catalog's records make are the store's indexes and their primaries, by its databases' numbers.
pub fn indexes_are_found()
    ensures { IndexesAreFound }
{}
