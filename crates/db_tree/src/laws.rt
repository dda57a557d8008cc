// What holds of every tree of a log.
ghost use Rattle.db_tree.specs.Laws.{TreesStayInLongerLogs, TreesAreSplitAndMarked, TreesAreCommitted, TreesAreLogged, TreesAreRaised, TreesAreByName, TreesAreCovered, BinsAreDirtyByContent, BinImagesShowCells, InImagesShowChildren, ImagesAreFew, NodesAreFew};

/// Each step of a tree and its log keeps that the tree fits the log: the log gets an entry of any kind; a
/// node is marked, or split by a copy of it that takes part of its names; records are committed whose BINs are marked; a
/// node is logged whose mark was handed on to the node above it; a root is put above the top; each low has the node that it had.
pub fn trees_fit_their_log()
    ensures longer { TreesStayInLongerLogs }
    ensures marked { TreesAreSplitAndMarked }
    ensures committed { TreesAreCommitted }
    ensures logged { TreesAreLogged }
    ensures raised { TreesAreRaised }
    ensures by_name { TreesAreByName }
{}

/// Where each mark of a tree is at a redo LSN or behind it, its root's image shows of each name what is
/// committed, or the name's newest committed change is at the redo LSN or behind it.
pub fn trees_are_covered()
    ensures { TreesAreCovered }
{}

/// A BIN is dirty by its content: where it does not wait to be logged, it is clean exactly where its last image says of each of its names what is
/// committed.
pub fn bins_are_dirty_by_content()
    ensures { BinsAreDirtyByContent }
{}

/// The image that is made of a BIN's cells shows what is committed of them; the image that is made of an IN's children shows what
/// their images show, where each of them has one.
pub fn images_show_their_nodes()
    ensures bins { BinImagesShowCells }
    ensures ins { InImagesShowChildren }
{}

/// A name's slot needs at most two images for each level of its tree and one for a new root, and makes at most one node for each level
/// and a root. A tree has at most 64 levels, so a change logs at most 129 images.
pub fn splits_are_few()
    ensures images { ImagesAreFew }
    ensures nodes { NodesAreFew }
{}
