// What holds of all stores.
ghost use Rattle.store_model.specs.Store.{StoresStayRight};
ghost use Rattle.store_model.specs.Indexes.{IndexesKeepUp};

/// The store of a new environment is a right one: its databases stand in byte order of their names and
/// its records in that of their keys, each once. Every change leaves a right store right.
pub fn stores_stay_right()
    ensures { StoresStayRight }
{}

/// The pairs of an index, with what comes with a change of a record of its primary, are the pairs of the
/// primary's records after the change.
pub fn indexes_keep_up()
    ensures { IndexesKeepUp }
{}
