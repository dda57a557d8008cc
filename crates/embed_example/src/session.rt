// A session of an environment.
ghost use Rattle.std.specs.Prelude.{IfOk};
ghost use Rattle.embed_example.specs.Usable.{IsUsable};

use environment::{Closed, Config, Environment, OpenErr, Opened, Outcome, Stopped};
use je_disk::{Disk, SyncJob};
use std::alloc::{AllocError, Global};
use store_model::{Answer, Call};

/// The one session of an open environment.
pub struct Session<D> {
    pub environment: Environment<D>,
    pub alloc: Global,
}

impl<D: Disk + Drop> Session<D> {
    /// Opens the environment that the disk has, or begins one on a disk without files.
    pub fn open(alloc: Global, disk: D) -> Result<Session<D>, OpenErr>
        ensures { IfOk result (λ session. IsUsable D.meaning session.environment) }
    {
        let config = Config {
            file_max: 10_000_000,
            fanout: 128,
        };
        match Environment::open(alloc, disk, &config) {
            Ok(
                Opened {
                    environment,
                    opening: _,
                },
            ) => Ok(Session { environment, alloc }),
            Err(Stopped { error, disk: _ }) => Err(error),
        }
    }

    /// Answers a call. A commit that was logged is synced, and answered when it is durable.
    pub fn execute(&mut self, call: &Call) -> Result<Answer, AllocError>
        requires here { IsUsable D.meaning self.old.environment }
        ensures here { IsUsable D.meaning self.new.environment }
    {
        match self.answer(call)? {
            Answer::Logged { .. } => Ok(self.sync()),
            answer => Ok(answer),
        }
    }

    // Answers a call.
    fn answer(&mut self, call: &Call) -> Result<Answer, AllocError>
        requires here { IsUsable D.meaning self.old.environment }
        ensures here { IsUsable D.meaning self.new.environment }
    {
        let outcome = self.environment.step(self.alloc, 1, 0, call)?;
        let Outcome { answer, victims: _ } = outcome;
        Ok(answer)
    }

    // Syncs the log.
    fn sync(&mut self) -> Answer
        requires here { IsUsable D.meaning self.old.environment }
        ensures here { IsUsable D.meaning self.new.environment }
    {
        if let Some(first) = self.environment.fault() {
            return Answer::Invalid { first };
        }
        let begun = self.environment.commits();
        match self.environment.sync_begin() {
            Some(job) => self.environment.sync_end(job.run(), begun),
            None => Answer::DiskFault,
        }
    }

    /// Closes the environment, and says whether the disk failed.
    pub fn close(self) -> bool {
        let Session {
            environment,
            alloc: _,
        } = self;
        let Closed {
            disk: _,
            failed,
            records: _,
        } = environment.close();
        failed
    }
}
