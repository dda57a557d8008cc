// Jobs that run outside the disk.
ghost use Rattle.std.specs.Prelude.{◌≡◌, ℕ};

/// A sync that a disk began. It takes no disk to run, so it may run in another thread while the disk is
/// in use. It has to be run, and what comes of it has to be ended or given up.
pub trait SyncJob {
    /// What comes of it.
    type Done: SyncDone;

    /// The number that was allocated for it.
    ghost job_number: { Self → ℕ };

    /// The number that was allocated for it.
    fn number(&self) -> u64
        ensures { result ≡ job_number self.now };

    /// Does the sync. Whether it worked is told at its end.
    fn run(self) -> Self::Done
        ensures { Self.Done.done_number result ≡ job_number self };
}

/// A sync that has run, and has to be ended or given up. Only a job's run gives one.
pub trait SyncDone {
    /// The job's number.
    ghost done_number: { Self → ℕ };

    /// The job's number.
    fn number(&self) -> u64
        ensures { result ≡ done_number self.now };

    /// Lets it go: the disk then learns nothing of it.
    fn give_up(self);
}

/// The reading of a whole file that a disk began. It takes no disk to run, so it may run in another
/// thread while the disk is in use. It has to be run, and what comes of it has to be ended or given up.
pub trait ReadJob {
    /// What comes of it.
    type Done: ReadDone;

    /// The number that was allocated for it.
    ghost job_number: { Self → ℕ };

    /// The number that was allocated for it.
    fn number(&self) -> u64
        ensures { result ≡ job_number self.now };

    /// Reads the file. Whether it worked is told at its end.
    fn run(self) -> Self::Done
        ensures { Self.Done.done_number result ≡ job_number self };
}

/// A reading that has run, and has to be ended or given up. Only a job's run gives one.
pub trait ReadDone {
    /// The job's number.
    ghost done_number: { Self → ℕ };

    /// The job's number.
    fn number(&self) -> u64
        ensures { result ≡ done_number self.now };

    /// Lets it go: the disk then learns nothing of it.
    fn give_up(self);
}
