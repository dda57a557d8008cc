// Closing an environment.
ghost use Rattle.std.specs.Prelude.{◌≡◌, ◌≤◌, [], ℕ, true, false, length};
ghost use Rattle.je_order.specs.Counts.{HasRisen};
ghost use Rattle.je_disk.specs.Moments.{now};
ghost use Rattle.log_buffer.specs.Buffer.{disk_of as disk_below, has_failed};
ghost use Rattle.log_buffer.specs.Crash.{KeepsRead, KeptThrough};
ghost use Rattle.log_buffer.specs.Log.{HasLog, ReadAs};
ghost use Rattle.log_file.specs.Log.{Log, entries_of};
ghost use Rattle.engine.specs.Guarded.{KeepsIfWorks};

use in_tree::Trees;
use je_disk::Disk;
use log_buffer::LogBuffer;

/// The records that were kept in memory.
pub type Records = Trees;

/// Closes a log: writes it out, and syncs, unless the disk failed before. Whether the disk failed now.
pub fn close_log<D: Disk>(log: LogBuffer<D>) -> (D, bool)
    ensures crash { D.meaning.observable ≡ true → (held : Log) (least : ℕ) → KeepsIfWorks (has_failed log) (now (D.meaning.history (disk_below log))) log held least → KeptThrough (D.meaning.history (disk_below log)) (D.meaning.history result.0) held [] least }
    ensures kept { D.meaning.observable ≡ true → (held : Log) → HasLog D.meaning.observable (now (D.meaning.history (disk_below log))) log held → has_failed log ≡ false → result.1 ≡ false → KeepsRead held [] (length (entries_of held)) (now (D.meaning.history result.0)) }
    ensures whole { (held : Log) → HasLog D.meaning.observable (now (D.meaning.history (disk_below log))) log held → has_failed log ≡ false → result.1 ≡ false → ReadAs D.meaning.observable (now (D.meaning.history result.0)).reads held }
    ensures still { has_failed log ≡ true → result.0 ≡ disk_below log }
    ensures cause { result.1 ≡ true → HasRisen (D.meaning.faults (disk_below log)) (D.meaning.faults result.0) }
    ensures never_falls { D.meaning.faults (disk_below log) ≤ D.meaning.faults result.0 }
{
    if log.has_failed() {
        return (log.into_disk(), false);
    }
    match log.close() {
        (disk, Ok(())) => (disk, false),
        (disk, Err(_)) => (disk, true),
    }
}
