// What holds of all trees that are made of a log.
ghost use Rattle.in_tree.specs.LoadedFits.{LoadedTreesFit};

/// Trees that were read from a checkpoint's roots fit the log that was read down to the images of their nodes, in a life of the
/// environment that begins behind it.
pub fn loaded_trees_fit()
    ensures { LoadedTreesFit }
{}
