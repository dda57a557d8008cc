// The jobs of the disk in memory.
ghost use Rattle.std.specs.Prelude.{◌≡◌};

use je_disk::{ReadDone, ReadJob, SyncDone, SyncJob};

/// A sync that was begun. There is nothing to do: the disk is in memory.
pub struct MemJob {
    number: u64,
}

/// A sync that has run.
pub struct MemDone {
    number: u64,
}

/// The reading of a file that was begun. The disk has the bytes itself when it ends.
pub struct MemReadJob {
    number: u64,
}

/// The reading of a file that has run.
pub struct MemReadDone {
    number: u64,
}

impl MemJob {
    pub(crate) fn new(number: u64) -> MemJob
        ensures { result.number ≡ number }
    {
        MemJob { number }
    }
}

impl SyncJob for MemJob {
    type Done = MemDone;

    ghost job_number = { λ job. job.number };

    fn number(&self) -> u64 {
        self.number
    }

    fn run(self) -> MemDone {
        let MemJob { number } = self;
        MemDone { number }
    }
}

impl SyncDone for MemDone {
    ghost done_number = { λ done. done.number };

    fn number(&self) -> u64 {
        self.number
    }

    fn give_up(self) {
        let MemDone { number: _ } = self;
    }
}

impl MemReadJob {
    pub(crate) fn new(number: u64) -> MemReadJob
        ensures { result.number ≡ number }
    {
        MemReadJob { number }
    }
}

impl ReadJob for MemReadJob {
    type Done = MemReadDone;

    ghost job_number = { λ job. job.number };

    fn number(&self) -> u64 {
        self.number
    }

    fn run(self) -> MemReadDone {
        let MemReadJob { number } = self;
        MemReadDone { number }
    }
}

impl ReadDone for MemReadDone {
    ghost done_number = { λ done. done.number };

    fn number(&self) -> u64 {
        self.number
    }

    fn give_up(self) {
        let MemReadDone { number: _ } = self;
    }
}
