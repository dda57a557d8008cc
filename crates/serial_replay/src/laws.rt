// What holds of every journal.
ghost use Rattle.serial_replay.specs.Laws.{CyclesNeverStand, IndexesStay, JournalsReplay, NoneIsIndexed};
ghost use Rattle.serial_replay.specs.Reached.{AttemptsAreIndexed, BeginningsAreReached, FrontsAreIndexed, ReachedGoesOn, ReachedIsIndexed};
ghost use Rattle.serial_replay.specs.Worked.{IsWorked};

/// Each committed transaction of a journal that answers as the model is as its level promises: a
/// serializable one gives the same answers and changes where its calls are made again right before its
/// commit; of one at repeatable read each record that was read stands there. What was answered through an
/// index, and what changed in indexes, comes again too.
pub fn journals_replay()
    ensures { JournalsReplay }
{}

/// After no event of such a journal do transactions wait for one another in a cycle.
pub fn cycles_never_stand()
    ensures { CyclesNeverStand }
{}

/// After each event of such a journal each index has the pairs of its primary's records, in the committed
/// store and as each transaction sees both, at each level.
pub fn indexes_stay()
    ensures { IndexesStay }
{}

/// A standing that a journal leads to has right indexes, and with one more event a journal leads to the
/// next one: so an environment can keep it as what holds between events.
pub fn reached_stays()
    ensures begins { BeginningsAreReached }
    ensures goes_on { ReachedGoesOn }
    ensures indexed { ReachedIsIndexed }
{}

/// Each attempted commit leaves right indexes, also one that met a disk fault, which a crash may leave or
/// not; and so do the first of a journal's attempts, however many of them a crash leaves.
pub fn attempts_stay_indexed()
    ensures each { AttemptsAreIndexed }
    ensures fronts { FrontsAreIndexed }
{}

/// A store without indexes has none that is wrong.
pub fn none_is_indexed()
    ensures { NoneIsIndexed }
{}

/// Calls at two cursors, and calls on a database and its index, that were worked by hand come to the same
/// again; and not where a record came into what they passed.
pub fn a_replay_is_worked()
    ensures { IsWorked }
{}
