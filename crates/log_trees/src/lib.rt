//! Trees as a log shows them. It stands on the files of logs and on the images of nodes. Upward it
//! promises that the records below an image are those that the image shows name by name, that they stay
//! the same in a longer log, and that trees whose images are right are read with no corruption. Its
//! functions have nothing to do: their contracts are the laws.
#![tactic(auto)]

ghost use Rattle.log_trees.specs.Laws.{SlotsStay, ShowsStay, RootsStay, ReadingsStay, TreesStay, ShowsAreSlots, RootsShow, RootsAreRead, RootsStayRight, ReadTreesAreRight};
ghost use Rattle.log_trees.specs.Building.{BinsAreRight, InsAreRight, BinsShow, InsShow};

/// What an image shows is the same in a longer log, and trees are read alike.
pub fn trees_stay()
    ensures slots { SlotsStay }
    ensures shows { ShowsStay }
    ensures roots { RootsStay }
    ensures trees { TreesStay }
    ensures right { RootsStayRight }
    ensures readings { ReadingsStay }
{}

/// The records below the image of a right tree are those that it shows name by name.
pub fn trees_show_their_slots()
    ensures slots { ShowsAreSlots }
    ensures roots { RootsShow }
{}

/// Trees whose images are all there and right are read with no corruption, and trees that are read with
/// no corruption are right.
pub fn trees_are_read()
    ensures read { RootsAreRead }
    ensures right { ReadTreesAreRight }
{}

/// When an image that is logged is right, and what it shows for a name.
pub fn images_are_right()
    ensures bins { BinsAreRight }
    ensures ins { InsAreRight }
    ensures bin_shows { BinsShow }
    ensures in_shows { InsShow }
{}
