// What holds of all standings.
ghost use Rattle.standing_laws.specs.Laws.{WritersAreFree, UnusedHasNoChanges, NoTransactionsIsAlone, AloneIsRight, ResumesSettle, EndsSettle, StandingsStayRight, BegunIsRight, ResumedIsRight, UntoldHasNoWait, StandingsStayBare, BegunIsBare, CursorsKeepDatabases};

/// What a call that got its locks changes, no other transaction has changed.
pub fn writers_are_free()
    ensures { WritersAreFree }
{}

/// In a database that nobody uses nobody has changes.
pub fn unused_has_no_changes()
    ensures { UnusedHasNoChanges }
{}

/// Where no transaction is under way nobody has a lock, a wait or own changes.
pub fn no_transactions_is_alone()
    ensures { NoTransactionsIsAlone }
{}

/// A standing in which no transaction is under way is right.
pub fn alone_is_right()
    ensures { AloneIsRight }
{}

/// A session that ends takes its waiting call along.
pub fn ends_settle()
    ensures { EndsSettle }
{}

/// A call that goes on is answered, and fewer calls wait; or it waits again, and fewer of as many may go on.
pub fn resumes_settle()
    ensures { ResumesSettle }
{}

/// Each event that answers what it may leaves a standing that is right, where the disk has not failed
/// before.
pub fn standings_stay_right()
    ensures { StandingsStayRight }
{}

/// A call outside a transaction begins one, and what holds goes on to hold.
pub fn begun_is_right()
    ensures { BegunIsRight }
{}

/// A call that waited and was granted its lock goes on, and what holds goes on to hold.
pub fn resumed_is_right()
    ensures { ResumedIsRight }
{}

/// A session whose transaction was told nothing has no call that waits.
pub fn untold_has_no_wait()
    ensures { UntoldHasNoWait }
{}

/// A transaction of one call has changed nothing between two events.
pub fn standings_stay_bare()
    ensures { StandingsStayBare }
{}

/// A call of its own begins with no changes.
pub fn begun_is_bare()
    ensures { BegunIsBare }
{}

/// A database on which a session has a cursor goes on under its name.
pub fn cursors_keep_databases()
    ensures { CursorsKeepDatabases }
{}
