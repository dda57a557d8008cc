// Closing an environment.
ghost use Rattle.std.specs.Prelude.{◌≡◌, ◌≤◌, ℕ, List, None, true, false};
ghost use Rattle.je_order.specs.Counts.{HasRisen};
ghost use Rattle.je_disk.specs.Moments.{History, now};
ghost use Rattle.store_model.specs.declared.event.Event.{Event};
ghost use Rattle.je_answers.specs.Standing.{Standing};
ghost use Rattle.je_answers.specs.After.{after_events};
ghost use Rattle.engine.specs.Crash.{ImagesMean, IsSafeRun};
ghost use Rattle.engine.specs.Files.{MeanStore};
ghost use Rattle.engine.specs.Lengths.{AreLengthsWithin};
ghost use Rattle.environment.specs.Databases.{rows_kept, rows_held};
ghost use Rattle.environment.specs.Whole.{IsAt, IsGuarded, disk_of};

use crate::environment::Environment;
use engine::{Engine, Records, close_log};
use je_disk::Disk;

/// A closed environment: its disk, whether closing met a fault of the disk, and the records that were
/// kept in memory, under the numbers that they had. A process that ends now need not give those back one by one.
pub struct Closed<D> {
    pub disk: D,
    pub failed: bool,
    pub records: Records,
}

impl<D: Disk> Environment<D> {
    /// Closes the environment: writes its log out, and syncs, unless the disk failed before. It takes no
    /// memory.
    pub fn close(self) -> Closed<D>
        ensures crash { D.meaning.observable ≡ true → (most : ℕ) (st : Standing) (start : History) (journal : List Event) → IsGuarded most st start (D.meaning.history (disk_of self)) self journal
            → IsSafeRun st start (D.meaning.history result.disk) journal }
        ensures images { D.meaning.observable ≡ true → result.failed ≡ false → (most : ℕ) (st : Standing) (start : History) (journal : List Event)
            → IsAt most D.meaning.observable (now (D.meaning.history (disk_of self))) self (after_events st journal) → IsGuarded most st start (D.meaning.history (disk_of self)) self journal
            → (after_events st journal).fault ≡ None → ImagesMean start.moment (D.meaning.history result.disk) (D.meaning.history result.disk).moment (after_events st journal).store }
        ensures files { D.meaning.observable ≡ true → result.failed ≡ false → (most : ℕ) (st : Standing) → IsAt most D.meaning.observable (now (D.meaning.history (disk_of self))) self st → st.fault ≡ None
            → MeanStore (now (D.meaning.history result.disk)).reads st.store }
        ensures lengths { D.meaning.observable ≡ true → result.failed ≡ false → (most : ℕ) (st : Standing) (start : History) (journal : List Event)
            → IsAt most D.meaning.observable (now (D.meaning.history (disk_of self))) self (after_events st journal) → IsGuarded most st start (D.meaning.history (disk_of self)) self journal
            → (after_events st journal).fault ≡ None → AreLengthsWithin most (now start).reads (now (D.meaning.history result.disk)).reads }
        ensures records { rows_kept result.records ≡ rows_held self }
        ensures cause { result.failed ≡ true → HasRisen (D.meaning.faults (disk_of self)) (D.meaning.faults result.disk) }
        ensures never_falls { D.meaning.faults (disk_of self) ≤ D.meaning.faults result.disk }
    {
        let Environment {
            engine,
            sessions,
            written,
        } = self;
        drop(sessions);
        drop(written);
        let Engine { trees, kept } = engine;
        drop(kept);
        let (log, records) = trees.into_parts();
        let (disk, failed) = close_log(log);
        Closed {
            disk,
            failed,
            records,
        }
    }
}
