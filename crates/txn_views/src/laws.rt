// What holds of what transactions see.
ghost use Rattle.std.specs.Prelude.{◌≡◌, ℕ, List, []};
ghost use Rattle.record_tree.specs.Occupied.{AllCells};
ghost use Rattle.store_model.specs.declared.record_change.RecordChange.{RecordChange};
ghost use Rattle.txn_views.specs.Targets.{OutcomesAreModels, PlansAreModels};
ghost use Rattle.txn_views.specs.Laws.{ViewsAreSeen, ChangesAreRight, WritesAreOwn, EndsLeaveWrites, DropsLeaveWrites, NobodyWrites, FreeNamesMayBeWritten, NoneIsLast};

/// The records that a transaction sees in the cells of a database are those of the model's view, and are right; the
/// names of the cells are the model's occupied names.
pub fn views_are_seen()
    ensures { ViewsAreSeen }
{}

/// The changes of a call that its database does not refuse are right in it.
pub fn changes_are_right()
    ensures { ChangesAreRight }
{}

/// A transaction wrote changes: its own changes are more by them.
pub fn writes_are_own()
    ensures { WritesAreOwn }
{}

/// The changes of a transaction were committed or given up: it has no own changes then.
pub fn ends_leave_writes()
    ensures { EndsLeaveWrites }
{}

/// A database went in which nobody had changes.
pub fn drops_leave_writes()
    ensures { DropsLeaveWrites }
{}

/// Nobody has own changes exactly where no name has the change of an active transaction.
pub fn nobody_writes()
    ensures { (cells : AllCells) (own : ℕ → List (ℕ × RecordChange)) (none : (t : ℕ) → own t ≡ []) → NobodyWrites cells own none }
{}

/// A name that nobody else has changed may be written.
pub fn free_names_may_be_written()
    ensures { FreeNamesMayBeWritten }
{}

/// Own changes of which none is of a name have no last one of it.
pub fn none_is_last()
    ensures { NoneIsLast }
{}

/// A plan of a call where there are indexes, on the databases of its target as its transaction sees them, is what the
/// model says of the call: its answer, its changes with their databases' numbers, its locks and its cursor's place.
pub fn plans_are_models()
    ensures { PlansAreModels }
{}

/// And so is one without locks: its answer and its changes.
pub fn outcomes_are_models()
    ensures { OutcomesAreModels }
{}
