// The count of calls and faults.
ghost use Rattle.std.specs.Prelude.{◌≡◌, ◌≤◌, ◌+◌, ◌-◌, ◌^◌, ◌↔◌, ◌<◌, ◌⊎◌, min, Contains, IsErr, OnOk};
ghost use Rattle.je_disk.specs.Causes.{HasFault};
ghost use Rattle.je_order.specs.Counts.{HasRisen};

use je_disk::DiskErr;

/// Counts the calls of a disk, and fails those whose numbers are listed and those behind a stop. Where
/// there is no stop it stands at 2^64 - 1, the last number that is counted.
#[derive(Drop)]
pub struct FaultPlan {
    fails: Vec<u64>,
    stop: u64,
    made: u64,
    faults: u64,
}

impl FaultPlan {
    /// No call was made. The calls of these numbers are to fail; the first call is number 1. There is no
    /// stop.
    pub fn new(fails: Vec<u64>) -> FaultPlan
        ensures fails { result.fails.items ≡ fails.items }
        ensures stop { result.stop ≡ 2 ^ 64 - 1 }
        ensures made { result.made ≡ 0 }
        ensures faults { result.faults ≡ 0 }
    {
        FaultPlan {
            fails,
            stop: u64::MAX,
            made: 0,
            faults: 0,
        }
    }

    /// Lists the calls that are to fail, in place of those listed before.
    pub fn fail(&mut self, fails: Vec<u64>)
        ensures { self.new ≡ record self.old { fails = fails } }
    {
        self.fails = fails;
    }

    /// Each call behind the call of this number is to fail, in place of the stop set before.
    pub fn stop_after(&mut self, number: u64)
        ensures { self.new ≡ record self.old { stop = number } }
    {
        self.stop = number;
    }

    /// One more call. It fails exactly where its number is listed or is behind the stop, and the count of
    /// faults rises then.
    pub fn call(&mut self) -> Result<(), DiskErr>
        ensures made { self.new.made ≡ min (self.old.made + 1) (2 ^ 64 - 1) }
        ensures due { IsErr result ↔ (Contains self.old.fails.items self.new.made ⊎ (self.old.stop < self.new.made)) }
        ensures steady { OnOk result (self.new.faults ≡ self.old.faults) }
        ensures fails { self.new.fails ≡ self.old.fails }
        ensures stop { self.new.stop ≡ self.old.stop }
        ensures cause { HasFault self.old.faults self.new.faults result }
    {
        self.made = self.made.saturating_add(1);
        if self.made > self.stop {
            return Err(self.fault());
        }
        if self.fails.contains(&self.made) {
            return Err(self.fault());
        }
        Ok(())
    }

    /// One more fault.
    pub fn fault(&mut self) -> DiskErr
        ensures failed { result ≡ DiskErr.Failed }
        ensures rose { HasRisen self.old.faults self.new.faults }
        ensures never_falls { self.old.faults ≤ self.new.faults }
        ensures fails { self.new.fails ≡ self.old.fails }
        ensures stop { self.new.stop ≡ self.old.stop }
        ensures made { self.new.made ≡ self.old.made }
    {
        self.faults = self.faults.saturating_add(1);
        DiskErr::Failed
    }

    pub fn faults(&self) -> u64
        ensures { result ≡ self.now.faults }
    {
        self.faults
    }
}
