// What holds of all nodes and their entries.
ghost use Rattle.node_log.specs.Laws.{ImagesAreEntries, DeltasAreEntries, ImagesAreReadBack, DeltasAreReadBack};

/// A node's entry, and its delta, keep the limits of their kinds, where the node does.
pub fn images_are_entries()
    ensures full { ImagesAreEntries }
    ensures delta { DeltasAreEntries }
{}

/// What is read of a node's entry is the node with its committed slots, none of them changed since; what is
/// read of an older entry and a delta to it is the node with its committed slots, of which those that the
/// delta shows are changed since.
pub fn nodes_are_read_back()
    ensures full { ImagesAreReadBack }
    ensures delta { DeltasAreReadBack }
{}
