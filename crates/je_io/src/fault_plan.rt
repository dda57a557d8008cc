// A count of faults, and of the calls until the one that is to fail.
ghost use Rattle.std.specs.Prelude.{◌≡◌, ◌≤◌, OnErr};
ghost use Rattle.je_order.specs.Counts.{HasRisen};

use crate::Failed;

// A count of faults, and the number of good calls before the one that fails, if one does.
#[derive(Drop)]
pub struct FaultPlan {
    good_calls: Option<u64>,
    pub faults: u64,
}

impl FaultPlan {
    // No fault so far; the call after that many good ones fails.
    pub fn new(good_calls: Option<u64>) -> FaultPlan
        ensures { result.faults ≡ 0 }
    {
        FaultPlan {
            good_calls,
            faults: 0,
        }
    }

    // Counts a fault.
    pub fn fault(&mut self) -> Failed
        ensures never_falls { self.old.faults ≤ self.new.faults }
        ensures rose { HasRisen self.old.faults self.new.faults }
    {
        self.faults = self.faults.saturating_add(1);
        Failed
    }

    // Counts a call, and fails where it is the one that is to.
    pub fn call(&mut self) -> Result<(), Failed>
        ensures never_falls { self.old.faults ≤ self.new.faults }
        ensures cause { OnErr result (HasRisen self.old.faults self.new.faults) }
    {
        let Some(good_calls) = self.good_calls else {
            return Ok(());
        };
        if good_calls == 0 {
            self.good_calls = None;
            return Err(self.fault());
        }
        self.good_calls = Some(good_calls - 1);
        Ok(())
    }
}
