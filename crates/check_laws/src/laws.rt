// The first that a check finds.
ghost use Rattle.check_laws.specs.Trees.{RootsAreChecked};
ghost use Rattle.check_laws.specs.Parts.{PartsBegin};
ghost use Rattle.check_laws.specs.Check.{ChecksBeginAsOpening};

/// The first finding of a check of the trees of roots is what their reading finds; where there is none, both have
/// read the same.
pub fn checks_begin_as_readings()
    ensures { RootsAreChecked }
{}

/// The first finding of each part behind the trees is what opening finds there.
pub fn parts_begin_as_opening()
    ensures { PartsBegin }
{}

/// The first finding of a whole check is what opening answers; where there is none, opening means what the check has
/// read, and its databases have as many records as the check counts.
pub fn checks_begin_as_opening()
    ensures { ChecksBeginAsOpening }
{}
