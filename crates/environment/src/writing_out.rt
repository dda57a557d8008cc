// Writing the log out.
ghost use Rattle.std.specs.Prelude.{◌≡◌, ◌≤◌, ◌++◌, ◌∷◌, [], ℕ, List, Some, true};
ghost use Rattle.je_order.specs.Counts.{HasRisen};
ghost use Rattle.je_disk.specs.Moments.{History, now};
ghost use Rattle.store_model.specs.declared.event.Event.{Event};
ghost use Rattle.store_model.specs.declared.event.Event.TheVariants.{WriteOut};
ghost use Rattle.je_answers.specs.Standing.{Standing};
ghost use Rattle.je_answers.specs.After.{after_events};
ghost use Rattle.engine.specs.Limits.{IsWithin};
ghost use Rattle.environment.specs.Whole.{CanGoOn, HasDone, IsAt, IsGuarded, disk_of, reach_of};

use crate::environment::Environment;
use je_disk::Disk;
use store_model::{Answer, Fault};

impl<D: Disk> Environment<D> {
    /// Writes the log out to its files, so that the commits so far are in them. It takes no memory.
    pub fn write_out(&mut self) -> Answer
        requires here { (most : ℕ) × (st : Standing) × IsAt most D.meaning.observable (now (D.meaning.history (disk_of self.old))) self.old st }
        ensures goes_on { (most : ℕ) (st : Standing) → IsAt most D.meaning.observable (now (D.meaning.history (disk_of self.old))) self.old st
            → HasDone most D.meaning.observable (now (D.meaning.history (disk_of self.new))) self.old self.new st (WriteOut result) }
        ensures crash { D.meaning.observable ≡ true → (most : ℕ) (st : Standing) (start : History) (journal : List Event)
            → IsAt most D.meaning.observable (now (D.meaning.history (disk_of self.old))) self.old (after_events st journal)
            → IsGuarded most st start (D.meaning.history (disk_of self.old)) self.old journal
            → IsGuarded most st start (D.meaning.history (disk_of self.new)) self.new (journal ++ WriteOut result ∷ []) }
        ensures within { IsWithin (reach_of self.new) (reach_of self.old) }
        ensures bounds { CanGoOn self.old → CanGoOn self.new }
        ensures never_falls { D.meaning.faults (disk_of self.old) ≤ D.meaning.faults (disk_of self.new) }
        ensures cause { result ≡ Answer.DiskFault → HasRisen (D.meaning.faults (disk_of self.old)) (D.meaning.faults (disk_of self.new)) }
    {
        if let Some(first) = self.engine.kept.fault {
            return Answer::Invalid { first };
        }
        match self.engine.trees.log.write_out() {
            Ok(()) => Answer::Durable {
                commit: self.engine.kept.commits,
            },
            Err(_) => {
                self.engine.kept.fault = Some(Fault::Disk);
                Answer::DiskFault
            }
        }
    }
}
