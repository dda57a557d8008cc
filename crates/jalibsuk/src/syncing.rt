// Syncs of an environment.
ghost use Rattle.std.specs.Prelude.{◌≡◌, ◌≤◌, ℕ, List, None};
ghost use Rattle.store_model.specs.declared.event.Event.{Event};
ghost use Rattle.je_answers.specs.Standing.{Standing};
ghost use Rattle.engine.specs.Limits.{IsWithin};
ghost use Rattle.environment.specs.Whole.{disk_of, reach_of};
ghost use Rattle.jalibsuk.specs.Usable.{IsUsable, StandsAt};
ghost use Rattle.jalibsuk.specs.Stepped.{HasEnded, HasWritten};
ghost use Rattle.jalibsuk.specs.Synced.{HasSynced, SyncsBy};

use environment::Environment;
use je_disk::{Disk, SyncJob};
use store_model::Answer;

// Syncs a valid environment.
fn sync_valid<D: Disk>(environment: &mut Environment<D>) -> Answer
    requires usable { IsUsable D.meaning environment.old }
    requires valid { (most : ℕ) (st : Standing) → StandsAt D.meaning most environment.old st → st.fault ≡ None }
    ensures usable { IsUsable D.meaning environment.new }
    ensures syncs { (events : List Event) × SyncsBy D.meaning environment.old environment.new result events }
    ensures within { IsWithin (reach_of environment.new) (reach_of environment.old) }
    ensures never_falls { D.meaning.faults (disk_of environment.old) ≤ D.meaning.faults (disk_of environment.new) }
{
    let begun = environment.commits();
    match environment.sync_begin() {
        Some(job) => environment.sync_end(job.run(), begun),
        None => Answer::DiskFault,
    }
}

// Makes each commit so far durable.
pub(crate) fn sync<D: Disk>(environment: &mut Environment<D>) -> Answer
    requires usable { IsUsable D.meaning environment.old }
    ensures usable { IsUsable D.meaning environment.new }
    ensures synced { HasSynced D.meaning environment.old environment.new result }
{
    if let Some(first) = environment.fault() {
        return Answer::Invalid { first };
    }
    sync_valid(environment)
}

// Writes the log out to its files.
pub(crate) fn write_out<D: Disk>(environment: &mut Environment<D>) -> Answer
    requires usable { IsUsable D.meaning environment.old }
    ensures usable { IsUsable D.meaning environment.new }
    ensures written { HasWritten D.meaning environment.old environment.new result }
{
    environment.write_out()
}

// Ends a session.
pub(crate) fn end<D: Disk>(environment: &mut Environment<D>, session: u8)
    requires usable { IsUsable D.meaning environment.old }
    ensures usable { IsUsable D.meaning environment.new }
    ensures ended { HasEnded D.meaning environment.old environment.new session }
{
    environment.end_session(session)
}
