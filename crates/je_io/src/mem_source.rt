// A source in memory.
ghost use Rattle.std.specs.Prelude.{◌≡◌, ◌<◌, Some};

use crate::fault_plan::FaultPlan;
use crate::{Failed, Source};

/// A source over bytes in memory. It is observable. It takes no memory.
#[derive(Drop)]
pub struct MemSource<'a> {
    rest: &'a [u8],
    most: usize,
    plan: FaultPlan,
    ghost gives: { 0 < most },
}

impl<'a> MemSource<'a> {
    /// A source of these bytes, which never fails.
    pub fn new(bytes: &'a [u8]) -> MemSource<'a>
        ensures left { ⟦<MemSource<'a> as Source>⟧.left result ≡ Some bytes.now }
        ensures faults { ⟦<MemSource<'a> as Source>⟧.faults result ≡ 0 }
    {
        MemSource {
            rest: bytes,
            most: usize::MAX,
            plan: FaultPlan::new(None),
        }
    }

    /// A source of these bytes whose one fault comes after that many good reads. Reads after it go on.
    pub fn failing(bytes: &'a [u8], good_reads: u64) -> MemSource<'a>
        ensures left { ⟦<MemSource<'a> as Source>⟧.left result ≡ Some bytes.now }
        ensures faults { ⟦<MemSource<'a> as Source>⟧.faults result ≡ 0 }
    {
        MemSource {
            rest: bytes,
            most: usize::MAX,
            plan: FaultPlan::new(Some(good_reads)),
        }
    }

    /// A source of these bytes, which never fails and gives at most `most` bytes at a time.
    pub fn slow(bytes: &'a [u8], most: usize) -> MemSource<'a>
        requires { 0 < most }
        ensures left { ⟦<MemSource<'a> as Source>⟧.left result ≡ Some bytes.now }
        ensures faults { ⟦<MemSource<'a> as Source>⟧.faults result ≡ 0 }
    {
        MemSource {
            rest: bytes,
            most,
            plan: FaultPlan::new(None),
        }
    }
}

impl<'a> Source for MemSource<'a> {
    ghost left = { λ s. Some s.rest.now };

    ghost faults = { λ s. s.plan.faults };

    fn read(&mut self, into: &mut [u8]) -> Result<usize, Failed> {
        self.plan.call()?;
        let count = self.most.min(self.rest.len()).min(into.len());
        let (front, rest) = self.rest.split_at(count);
        into[..count].copy_from_slice(front);
        self.rest = rest;
        Ok(count)
    }

    fn faults(&self) -> u64 {
        self.plan.faults
    }
}
