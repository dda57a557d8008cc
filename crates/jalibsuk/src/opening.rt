// Opening and closing.
ghost use Rattle.std.specs.Prelude.{◌≡◌, [], IfOk};
ghost use Rattle.jalibsuk.specs.Opened.{HasClosed, IsOpening, IsOpeningAlone, error_of_opening, told_closed};
ghost use Rattle.jalibsuk.specs.Usable.{IsUsable};

use crate::{Env, Error, NotOpened, Options};
use environment::{Closed, Config, Environment, OpenErr, Opened, Stopped};
use je_disk::Disk;
use std::alloc::Global;

// Why an environment was not opened.
fn opening_error(error: OpenErr) -> Error
    ensures { result ≡ error_of_opening error }
{
    match error {
        OpenErr::Disk => Error::DiskFault,
        OpenErr::Memory => Error::Memory,
        OpenErr::IdsEnded => Error::IdsEnded,
        OpenErr::Unreadable(first) => Error::Unreadable { first },
        OpenErr::WrongIndex(name) => {
            drop(name);
            Error::WrongIndex
        }
    }
}

// Opens the environment that a disk has.
fn open_environment<D: Disk + Drop>(
    alloc: Global,
    disk: D,
    options: Options,
) -> Result<Environment<D>, NotOpened<D>>
    ensures usable { IfOk result (λ environment. IsUsable D.meaning environment) }
    ensures opening { IsOpening D.meaning options.file_max disk (λ environment. environment) result }
{
    let config = Config {
        file_max: options.file_max,
        fanout: options.fanout,
    };
    match Environment::open(alloc, disk, &config) {
        Ok(opened) => {
            let Opened {
                environment,
                opening,
            } = opened;
            drop(opening);
            Ok(environment)
        }
        Err(stopped) => {
            let Stopped { error, disk } = stopped;
            let error = opening_error(error);
            Err(NotOpened { error, disk })
        }
    }
}

// Closes an environment, and gives its disk.
fn close_environment<D: Disk>(environment: Environment<D>) -> (D, Result<(), Error>)
    ensures closed { HasClosed D.meaning environment result.0 result.1 }
{
    let Closed {
        disk,
        failed,
        records,
    } = environment.close();
    drop(records);
    (disk, told(failed))
}

// Whether closing met a fault.
fn told(failed: bool) -> Result<(), Error>
    ensures { result ≡ told_closed failed }
{
    if failed {
        Err(Error::DiskFault)
    } else {
        Ok(())
    }
}

impl<D: Disk + Drop> Env<D> {
    /// Opens the environment that the disk has, or begins one on a disk without files. The store is what the files mean: all that was committed and
    /// durable, and nothing of a transaction that was not committed. Errors: `DiskFault`, `Memory`, `IdsEnded`, `Unreadable`, `WrongIndex`; the
    /// disk, which is handed back, has its files as they were, but for a torn end.
    pub fn open_disk(alloc: Global, disk: D, options: Options) -> Result<Env<D>, NotOpened<D>>
        ensures opening { IsOpening D.meaning options.file_max disk (λ env. env.environment) result }
        ensures names { IfOk result (λ env. env.names ≡ []) }
    {
        match open_environment(alloc, disk, options) {
            Ok(environment) => Ok(Env {
                environment,
                names: Vec::new(alloc),
                alloc,
            }),
            Err(stopped) => Err(stopped),
        }
    }

    /// Opens the environment as `open_disk` does. Where it is not opened the disk is let go.
    pub fn open(alloc: Global, disk: D, options: Options) -> Result<Env<D>, Error>
        ensures opening { IsOpeningAlone D.meaning options.file_max disk (λ env. env.environment) result }
        ensures names { IfOk result (λ env. env.names ≡ []) }
    {
        match Env::open_disk(alloc, disk, options) {
            Ok(env) => Ok(env),
            Err(stopped) => {
                let NotOpened { error, disk } = stopped;
                drop(disk);
                Err(error)
            }
        }
    }

    /// Closes the environment: its log is written out and synced. `DiskFault` where that failed, or where the disk had failed before. The disk is
    /// handed back.
    pub fn close_disk(self) -> (D, Result<(), Error>)
        ensures closed { HasClosed D.meaning self.environment result.0 result.1 }
    {
        let Env {
            environment,
            names,
            alloc: _,
        } = self;
        drop(names);
        close_environment(environment)
    }

    /// Closes the environment as `close_disk` does, and lets the disk go.
    pub fn close(self) -> Result<(), Error>
        ensures closed { (left : D) × HasClosed D.meaning self.environment left result }
    {
        let (disk, closed) = self.close_disk();
        drop(disk);
        closed
    }
}
