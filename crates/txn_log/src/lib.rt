//! What a log has of transactions under way: the committed records, and behind them each transaction's own
//! changes, which wait for its commit. It stands on what a log means and on what a crash leaves of one.
//! Upward it promises how a log goes on that gives an environment's records where several transactions work
//! on it: by changes of one of them, by its commit, by its end without one; and which transactions are
//! recovered then. Its functions have nothing to do: their contracts are the laws.
#![tactic(auto)]

ghost use Rattle.txn_log.specs.Own.{NoneIsLast, OwnAreTrees, TreesAreOwn};
ghost use Rattle.txn_log.specs.Gives.{StillGives, GivesSame};
ghost use Rattle.txn_log.specs.Growth.{ChangesGive, ChangesRecoverSame, TransactionGives, TransactionIsRecovered};
ghost use Rattle.txn_log.specs.Committing.{OwnMayBeCommitted, MayStay, MayStayElsewhere, RecordsAreCounted, HadGoOn, HadStay};
ghost use Rattle.txn_log.specs.Buffers.{ChangesAreGiven, ChangesAreRecovered, TriedChangesAreRecovered, TransactionIsGiven, CommitIsRecovered, TriedCommitIsRecovered};
ghost use Rattle.txn_log.specs.Checkpoints.{EndsFromEnd, EndsFromStays, RedoIsNeeded, EndIsGiven, EndIsRecovered, NeutralsAreGiven, NeutralsAreRecovered, TriedEndIsRecovered, TriedNeutralsAreRecovered, WaitsFrom};
ghost use Rattle.txn_log.specs.AtStanding.{ChangesLeaveLog, LoneCommitLeavesLog, NamedAreOn, OwnCommitLeavesLog, TransactionLeavesLog};

use je_disk::Disk;

/// The log is as it was: transactions begin, or end without a commit.
pub fn logs_stay()
    ensures still { StillGives }
    ensures same { GivesSame }
{}

/// Changes of a transaction under way behind a log, and a transaction's commit.
pub fn logs_go_on()
    ensures changes { ChangesGive }
    ensures changes_recover { ChangesRecoverSame }
    ensures transaction { TransactionGives }
    ensures transaction_recovers { TransactionIsRecovered }
{}

/// A name of which a transaction has no last own change is free of it. Own changes are changes of trees that
/// make no database.
pub fn own_changes_are_named()
    ensures free { NoneIsLast }
    ensures trees { TreesAreOwn }
    ensures own { OwnAreTrees }
{}

/// Own changes may be committed still behind changes of other databases.
pub fn own_changes_stay()
    ensures records { MayStay }
    ensures elsewhere { MayStayElsewhere }
{}

/// A transaction's own changes as changes of the store, and how many records they leave.
pub fn own_changes_are_committed()
    ensures committed { OwnMayBeCommitted }
    ensures counted { RecordsAreCounted }
    ensures go_on { HadGoOn }
    ensures stay { HadStay }
{}

/// The same of a log buffer that grows, and of one that fails on the way.
pub fn buffers_go_on<D: Disk>()
    ensures changes { ChangesAreGiven D.meaning }
    ensures changes_recover { ChangesAreRecovered D.meaning }
    ensures changes_tried { TriedChangesAreRecovered D.meaning }
    ensures transaction { TransactionIsGiven D.meaning }
    ensures transaction_recovers { CommitIsRecovered D.meaning }
    ensures transaction_tried { TriedCommitIsRecovered D.meaning }
{}

/// The entries of a checkpoint, its beginning, images of nodes, its end: the log gives what it gave, and what is
/// recovered is as it was, also where the disk fails on the way.
pub fn checkpoints_go_on<D: Disk>()
    ensures neutrals { NeutralsAreGiven D.meaning }
    ensures neutrals_recover { NeutralsAreRecovered D.meaning }
    ensures neutrals_tried { TriedNeutralsAreRecovered D.meaning }
    ensures end { EndIsGiven D.meaning }
    ensures end_recovers { EndIsRecovered D.meaning }
    ensures end_tried { TriedEndIsRecovered D.meaning }
{}

/// Where the redo of a log may begin it may still once the log has entries more, and behind a checkpoint's end from its redo
/// LSN on; it then begins in a file that is needed. What waits of a transaction waits behind its first entry.
pub fn redo_lsns_rise<D: Disk>()
    ensures stays { EndsFromStays D.meaning }
    ensures end { EndsFromEnd D.meaning }
    ensures needed { RedoIsNeeded }
    ensures waits { WaitsFrom }
{}

/// The log of an environment beside the model: it goes on as the model does, by changes of a transaction, by its
/// commit, and by a call of its own.
pub fn logs_follow_standings<D: Disk>()
    ensures named { NamedAreOn }
    ensures changes { ChangesLeaveLog D.meaning }
    ensures transaction { TransactionLeavesLog D.meaning }
    ensures own { OwnCommitLeavesLog D.meaning }
    ensures lone { LoneCommitLeavesLog D.meaning }
{}
