// Which jobs are out.
ghost use Rattle.std.specs.Prelude.{◌≡◌, ◌+◌, ◌-◌, ◌^◌, ◌↔◌, Some, None, IfSome, IsNone};

use je_lsn::FileNo;

/// The numbers of the jobs that are out, and the number that was allocated last: what each kind of disk
/// keeps of its jobs.
#[derive(Debug, Drop)]
pub struct Jobs {
    last_job: u64,
    sync: Option<u64>,
    reading: Option<u64>,
    file: FileNo,
}

impl Jobs {
    /// No number was allocated yet.
    pub fn new() -> Jobs
        ensures { result ≡ record { last_job = 0; sync = None; reading = None; file = record { 0 = 0 } } }
    {
        Jobs {
            last_job: 0,
            sync: None,
            reading: None,
            file: FileNo(0),
        }
    }

    /// No sync job is out.
    pub fn give_up_sync(&mut self)
        ensures { self.new ≡ record self.old { sync = None } }
    {
        self.sync = None;
    }

    /// No read job is out.
    pub fn give_up_reading(&mut self)
        ensures { self.new ≡ record self.old { reading = None } }
    {
        self.reading = None;
    }

    /// The number after the last one that was allocated; none after 2^64 - 1.
    pub fn next(&self) -> Option<u64>
        ensures some { IfSome result (λ number. number ≡ self.now.last_job + 1) }
        ensures none { IsNone result ↔ (self.now.last_job ≡ 2 ^ 64 - 1) }
    {
        self.last_job.checked_add(1)
    }

    /// A sync job of this number is out.
    pub fn begin_sync(&mut self, number: u64)
        ensures { self.new ≡ record self.old { last_job = number; sync = Some number } }
    {
        self.last_job = number;
        self.sync = Some(number);
    }

    /// A read job of this number is out, for this file.
    pub fn begin_reading(&mut self, number: u64, f: FileNo)
        ensures { self.new ≡ record self.old { last_job = number; reading = Some number; file = f } }
    {
        self.last_job = number;
        self.reading = Some(number);
        self.file = f;
    }

    pub fn sync(&self) -> Option<u64>
        ensures { result ≡ self.now.sync }
    {
        self.sync
    }

    pub fn reading(&self) -> Option<u64>
        ensures { result ≡ self.now.reading }
    {
        self.reading
    }

    pub fn file(&self) -> FileNo
        ensures { result ≡ self.now.file }
    {
        self.file
    }
}
