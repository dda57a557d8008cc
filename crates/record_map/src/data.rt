// The data of a record.
ghost use Rattle.std.specs.Prelude.{◌≡◌, ◌≤◌, [], length, IfOk};

use crate::held_data::{HeldData, NEAR};
use je_order::{Octets, padded};
use std::alloc::{AllocError, Global};
use std::marker::Model;

/// A record's data, seen as the list of its bytes. Few bytes lie in it, so that a look-up which found it
/// need not go elsewhere in memory.
#[derive(Drop)]
pub struct Data {
    held: HeldData,
}

impl Model for Data {
    ghost use Rattle.std.specs.Prelude.{◌≤◌, List, ℕ};
    ghost use Rattle.record_map.specs.Held.{data_held, near_len};

    ghost Value = { List ℕ };

    ghost view = { λ a. data_held a.held };

    ghost invariant = { λ a. near_len a.held ≤ 38 };
}

// Data of few bytes.
fn near(bytes: &[u8]) -> Data
    requires { length bytes.now ≤ 38 }
    ensures { result ≡ bytes.now }
{
    Data {
        held: HeldData::Near(bytes.len() as u8, padded(bytes)),
    }
}

impl Data {
    /// The bytes. It takes no memory.
    pub fn new(octets: Octets) -> Data
        ensures { result ≡ octets }
    {
        if octets.len() <= NEAR {
            return near(octets.as_slice());
        }
        Data {
            held: HeldData::Far(octets),
        }
    }

    /// No bytes. It takes no memory.
    pub fn empty() -> Data
        ensures { result ≡ [] }
    {
        Data {
            held: HeldData::Near(0, [0; NEAR]),
        }
    }

    /// A copy of the bytes. It takes memory where there are more than 38.
    pub fn from_slice(alloc: Global, bytes: &[u8]) -> Result<Data, AllocError>
        ensures { IfOk result (λ copy. copy ≡ bytes.now) }
    {
        if bytes.len() <= NEAR {
            return Ok(near(bytes));
        }
        Ok(Data {
            held: HeldData::Far(Octets::from_slice(alloc, bytes)?),
        })
    }

    /// The bytes.
    pub fn as_slice(&self) -> &[u8]
        ensures { result.now ≡ self.now }
    {
        match &self.held {
            HeldData::Near(len, bytes) => &bytes[..*len as usize],
            HeldData::Far(octets) => octets.as_slice(),
        }
    }
}
