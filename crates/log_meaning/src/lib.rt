//! What the entries of a log mean, with their LSNs: the trees of the last checkpoint's roots, and then the
//! redo from its redo LSN on. It stands on the trees that a log shows. Upward it promises that a log which
//! is read again gives an environment's records stays so with each entry that the environment appends.
//! Its functions have nothing to do: their contracts are the laws.
#![tactic(auto)]

ghost use Rattle.log_meaning.specs.Growth.{StandsNeutral, StandsPut, StandsDelete, StandsCommit, StandsEnd, StandsFewer, StandsOpen};
ghost use Rattle.log_meaning.specs.Listing.{ListedByName, ListedInOrder};
ghost use Rattle.log_meaning.specs.Plain.{ReplayedAlike, ReadAlike};
ghost use Rattle.log_meaning.specs.Worked.{IsWorked};
ghost use Rattle.log_meaning.specs.Ending.{EndsRecover};
ghost use Rattle.log_meaning.specs.Found.{ReadFilesAreFound, NoGapHasFiles, NextFileStays, OpenedIsBegun, NeededFilesRecover};
ghost use Rattle.log_meaning.specs.Transactions.{LoneAreFree, ChangesStand, TransactionsStand, NeutralsStand, StandsAlike, CheckpointsStay, ChangesRecover, TransactionsRecover, NeutralsRecover, CommitsRecover};
ghost use Rattle.log_meaning.specs.Recovery.{StandsLeaves, RecoversFirst, RecoversPush, ReadFilesLeave, ImagesRecover};

/// An entry more: an image, a change, a commit or a checkpoint's end.
pub fn logs_grow()
    ensures neutral { StandsNeutral }
    ensures put { StandsPut }
    ensures delete { StandsDelete }
    ensures commit { StandsCommit }
    ensures end { StandsEnd }
{}

/// A log that was found, and one whose environment has fewer transactions and databases than before.
pub fn logs_stand()
    ensures opened { StandsOpen }
    ensures fewer { StandsFewer }
{}

/// The records that changes leave, as lists, are those that they leave name by name, and their names rise.
pub fn records_are_listed()
    ensures named { ListedByName }
    ensures order { ListedInOrder }
{}

/// Files that are read with no corruption leave the store that they mean. A log that an environment works
/// on leaves the environment's store, and recovers one transaction more with each commit.
pub fn logs_recover()
    ensures read { ReadFilesLeave }
    ensures leaves { StandsLeaves }
    ensures first { RecoversFirst }
    ensures push { RecoversPush }
{}

/// What a crash leaves of a log that recovers transactions means the opening store changed by the first of
/// them, at least as many as the entries that a crash keeps have commits of.
pub fn images_recover()
    ensures { ImagesRecover }
{}

/// The entries of a transaction that are appended together, each front of them, and its changes alone; and
/// entries that change nothing.
pub fn transactions_stand()
    ensures lone { LoneAreFree }
    ensures changes { ChangesStand }
    ensures whole { TransactionsStand }
    ensures neutrals { NeutralsStand }
    ensures alike { StandsAlike }
{}

/// A log that is longer by a transaction, or by the Commit of one, recovers one transaction more; by changes
/// alone, or by entries that change nothing, it recovers the same ones. It keeps its last checkpoint.
pub fn transactions_recover()
    ensures checkpoint { CheckpointsStay }
    ensures changes { ChangesRecover }
    ensures whole { TransactionsRecover }
    ensures neutrals { NeutralsRecover }
    ensures commits { CommitsRecover }
{}

/// A log that is longer by a checkpoint's end stands and recovers what it did.
pub fn ends_recover()
    ensures { EndsRecover }
{}

/// Files that are read with no corruption miss none that is needed, as a log without a gap and a log with a
/// next file more. What a crash leaves of such a log means the opening store changed by the first of its
/// transactions.
pub fn files_are_needed()
    ensures found { ReadFilesAreFound }
    ensures whole { NoGapHasFiles }
    ensures next { NextFileStays }
    ensures recover { NeededFilesRecover }
{}

/// A log that was found stands as its environment begins.
pub fn logs_begin()
    ensures { OpenedIsBegun }
{}

/// A log of puts, deletes and commits alone means what a replay of the whole log gives, corruptions
/// included.
pub fn plain_logs_are_replayed()
    ensures replayed { ReplayedAlike }
    ensures read { ReadAlike }
{}

/// A log that was worked by hand is read as worked, and so are its corruptions where one child stands
/// elsewhere.
pub fn a_log_is_worked()
    ensures { IsWorked }
{}
