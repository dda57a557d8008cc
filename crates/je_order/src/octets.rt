// A byte string, seen as the list of its bytes.
ghost use Rattle.std.specs.Prelude.{◌≡◌, ◌==◌, ◌≤◌, [], length, IfOk};

use crate::Exact;
use crate::padding::padded;
use std::alloc::{AllocError, Global};
use std::cmp::Ordering;
use std::hash::{Hash, Hasher};
use std::marker::Model;

/// How many bytes are held at most where they are near.
pub(crate) const NEAR: usize = 30;

/// A byte string in memory.
#[derive(Debug, Drop)]
pub(crate) enum HeldOctets {
    /// How many bytes there are, and these with zeros behind them.
    Near(u8, [u8; NEAR]),
    /// More bytes.
    Far(Vec<u8>),
}

/// A byte string of any length: a key, a record's data. Ordered as unsigned bytes, a proper prefix
/// first (Getting Started Guide, "Database Records"). Few bytes lie in it.
#[derive(Debug, Drop)]
pub struct Octets {
    held: HeldOctets,
}

impl Model for Octets {
    ghost use Rattle.std.specs.Prelude.{List, ℕ, ◌≤◌};
    ghost use Rattle.je_order.specs.Held.{octets_held, octets_near_len};

    ghost Value = { List ℕ };

    ghost view = { λ a. octets_held a.held };

    ghost invariant = { λ a. octets_near_len a.held ≤ 30 };
}

// A byte string of few bytes.
fn near(bytes: &[u8]) -> Octets
    requires { length bytes.now ≤ 30 }
    ensures { result ≡ bytes.now }
{
    Octets {
        held: HeldOctets::Near(bytes.len() as u8, padded(bytes)),
    }
}

impl Octets {
    /// No bytes. It takes no memory.
    pub fn new(alloc: Global) -> Octets
        ensures { result ≡ [] }
    {
        Octets {
            held: HeldOctets::Near(0, [0; NEAR]),
        }
    }

    /// A copy of the slice.
    pub fn from_slice(alloc: Global, bytes: &[u8]) -> Result<Octets, AllocError>
        ensures { IfOk result (λ octets. octets ≡ bytes.now) }
    {
        if bytes.len() <= NEAR {
            return Ok(near(bytes));
        }
        let bytes = Vec::from_slice(alloc, bytes)?;
        Ok(Octets {
            held: HeldOctets::Far(bytes),
        })
    }

    /// The vector's bytes. It takes no memory.
    pub fn from_vec(bytes: Vec<u8>) -> Octets
        ensures { result ≡ bytes.items }
    {
        if bytes.len() <= NEAR {
            return near(bytes.as_slice());
        }
        Octets {
            held: HeldOctets::Far(bytes),
        }
    }

    pub fn as_slice(&self) -> &[u8]
        ensures { result.now ≡ self.now }
    {
        match &self.held {
            HeldOctets::Near(len, bytes) => &bytes[..*len as usize],
            HeldOctets::Far(bytes) => bytes.as_slice(),
        }
    }

    pub fn len(&self) -> usize
        ensures { result ≡ length self.now }
    {
        self.as_slice().len()
    }

    pub fn is_empty(&self) -> bool
        ensures { result ≡ (length self.now == 0) }
    {
        self.as_slice().is_empty()
    }
}

impl Clone for Octets {
    ghost is_clone = { λ v w. w ≡ v };

    fn clone(&self) -> Result<Octets, AllocError> {
        match &self.held {
            HeldOctets::Near(len, bytes) => Ok(near(&bytes[..*len as usize])),
            HeldOctets::Far(bytes) => {
                let bytes = bytes.clone()?;
                Ok(Octets {
                    held: HeldOctets::Far(bytes),
                })
            }
        }
    }
}

impl Exact for Octets {
    ghost exact = { λ x y h. h };
}

impl PartialEq for Octets {
    ghost use Rattle.std.specs.Prelude.{nat_eq};
    ghost use lib.Pointwise.{pointwise};
    ghost use Rattle.std.proofs.lemmas.Cmp.{nat_list_eq_equiv};
    ghost use Rattle.std.specs.Cmp.{partial_equiv_from_equiv};

    ghost eq = { pointwise nat_eq };

    ghost laws = { partial_equiv_from_equiv nat_list_eq_equiv };

    fn eq(&self, other: &Octets) -> bool {
        self.as_slice() == other.as_slice()
    }
}

impl Eq for Octets {
    ghost use Rattle.std.proofs.lemmas.Cmp.{nat_list_eq_equiv};

    ghost laws = { nat_list_eq_equiv };
}

impl PartialOrd for Octets {
    ghost use Rattle.std.proofs.Common.{rules};
    ghost use Rattle.std.specs.Ordering.{nat_cmp, as_partial_cmp};
    ghost use Rattle.std.specs.Cmp.Lexicographic.{slice_cmp};
    ghost use Rattle.std.specs.Cmp.{partial_order_from_own_ties};
    ghost use Rattle.std.specs.Cmp.Rules.{comparing};

    ghost partial_cmp = { as_partial_cmp (slice_cmp nat_cmp) };

    ghost laws = { partial_order_from_own_ties (Prim.search (comparing, rules)) (Prim.search (comparing, rules)) };

    fn partial_cmp(&self, other: &Octets) -> Option<Ordering> {
        Some(self.cmp(other))
    }
}

impl Ord for Octets {
    ghost use Rattle.std.proofs.Common.{rules};
    ghost use Rattle.std.specs.Ordering.{nat_cmp};
    ghost use Rattle.std.specs.Cmp.Lexicographic.{slice_cmp};
    ghost use Rattle.std.specs.Cmp.Rules.{comparing};
    ghost use Rattle.std.proofs.lemmas.Cmp.{nat_list_cmp_total};

    ghost cmp = { slice_cmp nat_cmp };

    ghost total = { nat_list_cmp_total };

    ghost matches_partial_cmp = { Prim.search (comparing, rules) };

    ghost matches_eq = { Prim.search (comparing, rules) };

    fn cmp(&self, other: &Octets) -> Ordering {
        crate::order::cmp_bytes(self.as_slice(), other.as_slice())
    }
}

impl Hash for Octets {
    ghost use Rattle.std.proofs.Common.{rules};
    ghost use Rattle.std.specs.Prelude.{◌∷◌, []};
    ghost use Rattle.std.specs.Cmp.Rules.{hashing};

    ghost hash_input = { λ a. a ∷ [] };

    ghost respects_eq = { Prim.search (hashing, rules) };

    fn hash<H: Hasher>(&self, state: &mut H) {
        state.write(self.as_slice());
    }
}
