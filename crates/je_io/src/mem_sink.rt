// A sink in memory.
ghost use Rattle.std.specs.Prelude.{◌≡◌, [], Some};

use crate::fault_plan::FaultPlan;
use crate::{Failed, Sink};
use std::alloc::Global;

/// A sink that keeps in memory what was written. It is observable. Out of memory is a fault of it.
#[derive(Drop)]
pub struct MemSink {
    bytes: Vec<u8>,
    room: usize,
    plan: FaultPlan,
}

impl MemSink {
    /// An empty sink. It takes no memory yet.
    pub fn new(alloc: Global) -> MemSink
        ensures written { ⟦<MemSink as Sink>⟧.written result ≡ Some [] }
        ensures faults { ⟦<MemSink as Sink>⟧.faults result ≡ 0 }
    {
        MemSink::failing(alloc, usize::MAX)
    }

    /// An empty sink that takes that many bytes, and fails at each write of more.
    pub fn failing(alloc: Global, room: usize) -> MemSink
        ensures written { ⟦<MemSink as Sink>⟧.written result ≡ Some [] }
        ensures faults { ⟦<MemSink as Sink>⟧.faults result ≡ 0 }
    {
        MemSink {
            bytes: Vec::new(alloc),
            room,
            plan: FaultPlan::new(None),
        }
    }

    /// What was written.
    pub fn bytes(&self) -> &[u8]
        ensures { ⟦<MemSink as Sink>⟧.written self.now ≡ Some result.now }
    {
        self.bytes.as_slice()
    }
}

impl Sink for MemSink {
    ghost written = { λ s. Some s.bytes.items };

    ghost faults = { λ s. s.plan.faults };

    fn write(&mut self, from: &[u8]) -> Result<usize, Failed> {
        let count = self.room.min(from.len());
        if count == 0 && !from.is_empty() {
            return Err(self.plan.fault());
        }
        if self.bytes.extend_from_slice(&from[..count]).is_err() {
            return Err(self.plan.fault());
        }
        self.room -= count;
        Ok(count)
    }

    fn faults(&self) -> u64 {
        self.plan.faults
    }
}
