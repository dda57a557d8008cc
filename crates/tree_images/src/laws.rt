// What holds of every tree that fits a log.
ghost use Rattle.tree_images.specs.Laws.{SoundImagesAreTrees, SoundImagesShow, SoundImagesAreRead, SoundImagesStay, FittingTreesStay, ForestsStay, RootsOfFittingTreesAreRight, RootsOfFittingTreesAreRead, CellsAreSet, MadeCellsAreRecorded, WritesAreRecorded, CommittedCellsAreRecorded, GivenUpCellsAreRecorded, LoggedCellsAreRecorded, LoadedCellsAreRecorded};
ghost use Rattle.tree_images.specs.NodeLaws.{MoreNodesAreDue, SameNodesAreImaged, ClearedNodesAreImaged, FinishedImagesAreWhole, LoggedImagesAreSound, LoggedImagesHaveContent, LoggedNodesAreImaged, FlushedNodesAreImaged, WaitingNodesAreImaged, NewTreesAreImaged, EarlierMarksKeepTrees};
ghost use Rattle.tree_images.specs.EndLaws.{ForestsMayEnd, LatestAreNewest};
ghost use Rattle.tree_images.specs.ExactLaws.{GrownBinsAreExact, NewBinsAreExact, PlacedBinsAreExact, UnloggedBinsAreExact};
ghost use Rattle.tree_images.specs.LogLaws.{DueImagesAreLogged};
ghost use Rattle.tree_images.specs.ReadLaws.{ReadTreesFit, UnreadTreesFit, ReadForestsFit};
ghost use Rattle.tree_images.specs.RedoSteps.{RedoneTreesFit};
ghost use Rattle.tree_images.specs.NewestLaws.{NewestStays, CommitsAreNewest};
ghost use Rattle.tree_images.specs.PlaceLaws.{NewHomesAgree, NewRootsAreAtHome, SplitsAreOfNodes, GrownNodesAreImaged, OrdersStay, PlacedNodesAreInOrder, PlacedTreesAreImaged, UnloggedTreesAreImaged};

/// An image that is sound in a tree's words is the root of a right tree, as opening reads it, and shows of
/// each name what the tree takes it to show.
pub fn sound_images_are_read()
    ensures trees { SoundImagesAreTrees }
    ensures shows { SoundImagesShow }
    ensures read { SoundImagesAreRead }
{}

/// A sound image stays sound in a longer log and where more numbers of nodes are allocated, and a tree that fits a log fits the longer one, as do
/// all trees where one took the place of another one.
pub fn sound_images_stay()
    ensures images { SoundImagesStay }
    ensures trees { FittingTreesStay }
    ensures forests { ForestsStay }
{}

/// Cells whose data stands where they say stay so where a name's cell is made, gets a change that was logged, is
/// committed, given up, taken out, or set from the log; a name's cell is set alone.
pub fn cells_are_recorded()
    ensures set { CellsAreSet }
    ensures made { MadeCellsAreRecorded }
    ensures written { WritesAreRecorded }
    ensures committed { CommittedCellsAreRecorded }
    ensures given_up { GivenUpCellsAreRecorded }
    ensures logged { LoggedCellsAreRecorded }
    ensures loaded { LoadedCellsAreRecorded }
{}

/// The nodes of a tree have sound images, but for those that wait and those that are still to be logged: more of them may be, marks do
/// not matter, and nodes that are still to be logged need not wait. The image of a node is whole, sound and has the node's content where
/// its children are logged before it, and then one node fewer is still to be logged. Nodes that wait, and the root of a new tree, need none. A
/// tree whose nodes have earlier marks is one of its log.
pub fn nodes_are_logged()
    ensures more { MoreNodesAreDue }
    ensures same { SameNodesAreImaged }
    ensures cleared { ClearedNodesAreImaged }
    ensures finished { FinishedImagesAreWhole }
    ensures sound { LoggedImagesAreSound }
    ensures content { LoggedImagesHaveContent }
    ensures logged { LoggedNodesAreImaged }
    ensures flushed { FlushedNodesAreImaged }
    ensures waiting { WaitingNodesAreImaged }
    ensures new { NewTreesAreImaged }
    ensures marks { EarlierMarksKeepTrees }
{}

/// Where nodes are split for a name's slot, and a root is put above them, the new nodes' numbers get their places, and all nodes have sound
/// images but for the halves and the root.
pub fn nodes_are_split()
    ensures homes { NewHomesAgree }
    ensures root { NewRootsAreAtHome }
    ensures splits { SplitsAreOfNodes }
    ensures grown { GrownNodesAreImaged }
{}

/// Nodes that are logged for a name's slot stand behind their children, which wait no more, and so it stays while they are logged.
pub fn nodes_are_in_order()
    ensures stay { OrdersStay }
    ensures placed { PlacedNodesAreInOrder }
{}

/// A tree in which a name got its slot fits its log but for the nodes of its images, which stand in the order in which they are logged. Where
/// the slot is not logged, the nodes that were split for it wait.
pub fn trees_are_placed()
    ensures logged { PlacedTreesAreImaged }
    ensures unlogged { UnloggedTreesAreImaged }
{}

/// Of images that are still to be logged the first one is logged and noted at its node: it has the node's content, and the tree fits but
/// for the nodes of the others. Behind the last it fits whole.
pub fn images_are_logged()
    ensures { DueImagesAreLogged }
{}

/// A tree whose nodes and cells are as the images show them that were read fits the log, and so does one whose nodes all wait to be
/// logged. The trees that reading a checkpoint's roots gives fit the log that was read.
pub fn read_trees_fit()
    ensures read { ReadTreesFit }
    ensures unread { UnreadTreesFit }
    ensures forests { ReadForestsFit }
{}

/// A tree that fits a log fits it where a change of that log is redone: the nodes that were split for it wait.
pub fn redone_trees_fit()
    ensures { RedoneTreesFit }
{}

/// Entries that commit nothing leave each name's newest committed change; a Commit brings no older one, and none of its changes is newer.
pub fn newest_changes_rise()
    ensures stays { NewestStays }
    ensures commits { CommitsAreNewest }
{}

/// The roots of trees that fit a log may be named by a checkpoint's end: they are right, what they lack is redone, and they are read with no
/// corruption.
pub fn roots_are_right()
    ensures right { RootsOfFittingTreesAreRight }
    ensures read { RootsOfFittingTreesAreRead }
{}

/// Where the trees of all databases fit the log of an environment, a checkpoint's end may name their roots: each name's change
/// with the greatest LSN is its newest one.
pub fn forests_may_end()
    ensures newest { LatestAreNewest }
    ensures end { ForestsMayEnd }
{}

/// Each BIN is dirty exactly where it has not its last image's content or waits to be logged, and so it stays where nodes are split for a
/// name's slot, but for those that are still to be logged then. So it is in a new tree.
pub fn bins_are_exact()
    ensures grown { GrownBinsAreExact }
    ensures placed { PlacedBinsAreExact }
    ensures unlogged { UnloggedBinsAreExact }
    ensures new { NewBinsAreExact }
{}
