// Opening an environment over a disk.
ghost use Rattle.std.specs.Prelude.{◌≡◌, ◌≤◌, [], true, IfOk, IfErr};
ghost use Rattle.je_disk.specs.Moments.{now};
ghost use Rattle.je_answers.specs.Alone.{Alone, alone};
ghost use Rattle.sessions.specs.AtStanding.{AreSessionsAt};
ghost use Rattle.engine.specs.Crash.{KeepsEntry};
ghost use Rattle.engine.specs.Untouched.{IsLeftAlone};
ghost use Rattle.engine.specs.Opening.{StopsBy};
ghost use Rattle.environment.specs.Whole.{CanGoOn, IsOpened, IsOpenedSafely, disk_of};

use crate::environment::Environment;
use crate::written::Written;
use engine::{Config, Engine, Opened as Began, Opening, Stopped};
use je_disk::Disk;
use sessions::Sessions;
use std::alloc::Global;
use std::collections::BTreeMap;

/// An open environment, and the store that it held at entry.
pub struct Opened<D> {
    pub environment: Environment<D>,
    pub opening: Opening,
}

// An environment in which no session has a transaction.
fn begun<D: Disk>(alloc: Global, opened: Began<D>) -> Opened<D>
    ensures engine { result.environment.engine ≡ opened.engine }
    ensures opening { result.opening ≡ opened.opening }
    ensures sessions { (p : Alone) → AreSessionsAt result.environment.sessions (alone p) }
    ensures written { result.environment.written.by_txn.entries ≡ [] }
{
    let Began { engine, opening } = opened;
    Opened {
        environment: Environment {
            engine,
            sessions: Sessions::new(alloc),
            written: Written {
                by_txn: BTreeMap::new(alloc),
            },
        },
        opening,
    }
}

impl<D: Disk> Environment<D> {
    /// Opens the environment that a disk has: reads its log, cuts off what follows the valid prefix of the
    /// last file, and syncs. Where there is no file, or the last one has no header, the header is written
    /// with the first sync. A log that cannot be opened is left as it is.
    pub fn open(alloc: Global, disk: D, config: &Config) -> Result<Opened<D>, Stopped<D>>
        requires file_max { config.now.file_max ≤ 1073741824 }
        requires least { 4 ≤ config.now.fanout }
        requires most { config.now.fanout ≤ 128 }
        ensures opened { IfOk result (λ opened. IsOpened config.now.file_max D.meaning.observable (now (D.meaning.history disk)).reads (now (D.meaning.history (disk_of opened.environment))) opened.environment opened.opening) }
        ensures crash { D.meaning.observable ≡ true → IfOk result (λ opened. IsOpenedSafely config.now.file_max (now (D.meaning.history disk)).reads opened.opening (D.meaning.history (disk_of opened.environment)) opened.environment) }
        ensures entry { D.meaning.observable ≡ true → IfOk result (λ opened. KeepsEntry (D.meaning.history disk) (D.meaning.history (disk_of opened.environment))) }
        ensures bounds { IfOk result (λ opened. CanGoOn opened.environment) }
        ensures faults { IfOk result (λ opened. D.meaning.faults disk ≤ D.meaning.faults (disk_of opened.environment)) }
        ensures stopped_entry { D.meaning.observable ≡ true → IfErr result (λ stopped. KeepsEntry (D.meaning.history disk) (D.meaning.history stopped.disk)) }
        ensures stopped { IfErr result (λ stopped. StopsBy D.meaning.observable (now (D.meaning.history disk)).reads (D.meaning.faults disk) (D.meaning.faults stopped.disk) stopped.error) }
        ensures stopped_faults { IfErr result (λ stopped. D.meaning.faults disk ≤ D.meaning.faults stopped.disk) }
        ensures left_alone { D.meaning.observable ≡ true → IfErr result (λ stopped. IsLeftAlone stopped.error (D.meaning.history disk) (D.meaning.history stopped.disk)) }
    {
        match Engine::open(alloc, disk, config) {
            Ok(opened) => Ok(begun(alloc, opened)),
            Err(stopped) => Err(stopped),
        }
    }
}
