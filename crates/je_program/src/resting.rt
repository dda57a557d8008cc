// An environment that is given no line.
ghost use Rattle.std.specs.Prelude.{◌≡◌, ◌≤◌, ◌⊎◌, [], ℕ, true, false, slice_index_or};
ghost use Rattle.je_disk.specs.Moments.{History};
ghost use Rattle.environment.specs.Databases.{rows_held};
ghost use Rattle.environment.specs.Whole.{disk_of};
ghost use Rattle.script_run.specs.UnderWay.{Beginning};
ghost use Rattle.je_program.specs.declared.cause.Cause.{Cause as Why};
ghost use Rattle.je_program.specs.Commands.{usual_file_max};
ghost use Rattle.je_program.specs.Dumping.{HaveRows};
ghost use Rattle.je_program.specs.Loading.{HasStart};
ghost use Rattle.je_program.specs.Program.{ClosesRun, IsRunOf};
ghost use Rattle.je_program.specs.Request.{IsConfig};

use crate::run_result::{RunResult, finish};
use environment::{Config, Environment, Opening};
use je_disk::Disk;
use script_run::{Recorded, Running};
use std::alloc::Global;

/// How an environment is opened where no option says how.
pub fn usual_config() -> Config
    ensures is { IsConfig result }
    ensures file_max { result.file_max ≡ usual_file_max }
{
    Config {
        file_max: 10_000_000,
        fanout: 128,
    }
}

/// A run that is given no line; there may have been no memory for the lines.
pub fn at_rest<D: Disk>(
    alloc: Global,
    environment: Environment<D>,
    memory_ended: bool,
) -> Running<D>
    ensures environment { result.recorded.environment ≡ environment }
    ensures journal { result.recorded.journal.items ≡ [] }
    ensures memory { result.memory_ended ≡ memory_ended }
    ensures stopped { (session : ℕ) → slice_index_or result.stopped session false ≡ false }
{
    Running {
        recorded: Recorded {
            environment,
            journal: Vec::new(alloc),
        },
        memory_ended,
        stopped: [false; 256],
        steps_stopped: false,
        halted: false,
    }
}

/// Closes an environment to which no line was given.
pub fn close_at_rest<D: Disk>(
    alloc: Global,
    environment: Environment<D>,
    opening: Opening,
) -> RunResult<D>
    ensures opened { result.opened ≡ true }
    ensures opening { result.opening ≡ opening }
    ensures journal { result.journal.items ≡ [] }
    ensures records { HaveRows result.records (rows_held environment) }
    ensures run { (old : History) (before : ℕ) (p : Beginning) → HasStart D.meaning old before opening p environment
        → IsRunOf p.most D.meaning.observable old (D.meaning.history result.disk) before (D.meaning.faults result.disk) result.opening result.totals result.journal.items result.cause p.st }
    ensures ends { (result.cause ≡ Why.Done) ⊎ (result.cause ≡ Why.Disk) }
    ensures caused { (before : ℕ) → before ≤ D.meaning.faults (disk_of environment) → ClosesRun before (D.meaning.faults result.disk) result.journal.items result.cause }
{
    let running = at_rest(alloc, environment, false);
    finish(running, opening)
}
