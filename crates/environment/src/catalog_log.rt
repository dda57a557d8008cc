// A change of the catalog is logged, with what it puts in an index.
ghost use Rattle.std.specs.Prelude.{◌≡◌, ◌≤◌, ◌<◌, ◌+◌, true, false, length, IfSome};
ghost use Rattle.std.specs.List.{AllByRecursion};
ghost use Rattle.log_buffer.specs.Buffer.{has_failed};
ghost use Rattle.log_entry.specs.Body.{IsEntry};
ghost use Rattle.record_map.specs.Cells.{value_at};
ghost use Rattle.record_tree.specs.Logged.{entry_for};
ghost use Rattle.record_tree.specs.Occupied.{AreFewNew, IsFreeFor, write_in};
ghost use Rattle.in_tree.specs.Filling.{AreFilling};
ghost use Rattle.in_tree.specs.Observed.{cells_of, has_tree_of};
ghost use Rattle.engine.specs.Steps.{HasStepCause, LogsChanges, txn_of};
ghost use Rattle.engine.specs.Whole.{CanGoOn, EndsNear, LeavesCells, contents, disk_of};
ghost use Rattle.environment.specs.Whole.{limit_found};
ghost use Rattle.store_model.specs.declared.store.TheConstants.{LAST_DATABASE as last_database, LAST_TXN as last_number};

use engine::Engine;
use je_disk::Disk;
use std::alloc::{AllocError, Global};
use store_model::Answer;
use txn_core::PlannedChanges;

/// Logs changes, with room for as many Commits; those that make an index and fill it at once. Running out of memory leaves the engine as it was.
pub(crate) fn log_catalog<D: Disk>(
    engine: &mut Engine<D>,
    alloc: Global,
    changes: PlannedChanges,
    fills: bool,
    owed: u32,
) -> Result<Answer, AllocError>
    requires bounds { CanGoOn engine.old }
    requires works { has_failed engine.old.trees.log ≡ false }
    requires some { 1 ≤ owed }
    requires numbers { engine.old.kept.last_txn < last_number }
    requires free { fills ≡ false → AllByRecursion (λ c. IsFreeFor (txn_of (engine.old.kept.last_txn + 1)) (write_in (value_at c.name (cells_of engine.old.trees c.db)))) changes.changes.items }
    requires few { fills ≡ false → AreFewNew (cells_of engine.old.trees) changes.changes.items }
    requires there { fills ≡ false → AllByRecursion (λ c. has_tree_of engine.old.trees c.db ≡ true) changes.changes.items }
    requires new { fills ≡ false → changes.last_db ≤ last_database → AllByRecursion (λ c. IfSome c.makes (λ d. has_tree_of engine.old.trees d ≡ false)) changes.changes.items }
    requires unused { fills ≡ true → changes.last_db ≤ last_database → AllByRecursion (λ c. IsFreeFor (txn_of (engine.old.kept.last_txn + 1)) (write_in (value_at c.name (cells_of engine.old.trees c.db)))) changes.changes.items }
    requires filling { fills ≡ true → changes.last_db ≤ last_database → AreFilling (has_tree_of engine.old.trees) changes.changes.items }
    requires entries { AllByRecursion (λ c. IsEntry (entry_for (txn_of (engine.old.kept.last_txn + 1)) c.db c.name c.value)) changes.changes.items }
    ensures trees { LeavesCells engine.old.trees engine.new.trees changes owed result }
    ensures near { EndsNear engine.old.trees engine.new.trees (length changes.changes.items) result }
    ensures logs { LogsChanges D.meaning engine.old.trees.log engine.new.trees.log (contents engine.old.trees engine.old.kept) (contents engine.new.trees engine.new.kept) changes (limit_found fills engine.old.trees changes.changes.items owed) result }
    ensures indexes { engine.new.kept.indexes ≡ engine.old.kept.indexes }
    ensures names { engine.new.kept.names ≡ engine.old.kept.names }
    ensures bounds { CanGoOn engine.new }
    ensures cause { HasStepCause (D.meaning.faults (disk_of engine.old)) (D.meaning.faults (disk_of engine.new)) result }
{
    if fills {
        engine.log_filled(alloc, changes, owed)
    } else {
        engine.log_among(alloc, changes, owed)
    }
}
