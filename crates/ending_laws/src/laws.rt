// What has to hold before the end of a checkpoint is logged.
ghost use Rattle.ending_laws.specs.Ends.{CellsAreRecords, EndsMayStand};

use je_disk::Disk;

/// The end of a checkpoint may stand behind a log that the trees fit.
pub fn ends_may_stand<D: Disk>()
    ensures { EndsMayStand D.meaning }
{}

/// The records of trees are what transactions find committed in their cells.
pub fn cells_are_records()
    ensures { CellsAreRecords }
{}
