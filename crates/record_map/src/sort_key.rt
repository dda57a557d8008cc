// What the records of a database are sorted by.
ghost use Rattle.std.specs.Prelude.{◌≡◌, ◌≤◌, [], length, IfOk};
ghost use Rattle.std.specs.Ordering.{nat_cmp, ordering_then};
ghost use Rattle.je_order.specs.Order.{bytes_cmp, name_cmp};
ghost use Rattle.je_order.specs.Held.{padded_to};

use crate::held_name::{HEAD, HeldName, SHORT};
use je_order::{Name, Octets, cmp_bytes, cmp_word, copy_of, padded};
use std::alloc::{AllocError, Global};
use std::cmp::Ordering;
use std::marker::Model;

/// A name, seen as the name alone and in name order. A short key lies in it whole, and of a longer one
/// the head, at which most comparisons end: they read no bytes elsewhere in memory.
#[derive(Drop)]
pub struct SortKey {
    held: HeldName,
}

impl Model for SortKey {
    ghost use Rattle.je_order.specs.declared.name.Name.{Name as Named};
    ghost use Rattle.record_map.specs.Held.{IsHeld, name_held};

    ghost Value = { Named };

    ghost view = { λ a. name_held a.held };

    ghost invariant = { λ a. IsHeld a.held };
}

// The name of a short key, and of no dup.
fn short(key: &[u8]) -> SortKey
    requires { length key.now ≤ 22 }
    ensures { result ≡ record { key = key.now; dup = [] } }
{
    SortKey {
        held: HeldName::Short(key.len() as u8, padded(key)),
    }
}

// The order of short keys: that of their bytes with zeros behind, and where these are the same, of their lengths.
#[inline]
fn cmp_short(len: u8, bytes: &[u8; SHORT], other_len: u8, other_bytes: &[u8; SHORT]) -> Ordering
    ensures { result ≡ ordering_then (bytes_cmp bytes.now other_bytes.now) (nat_cmp len other_len) }
{
    let first = cmp_word(bytes, other_bytes, 0);
    if first.is_ne() {
        return first;
    }
    let second = cmp_word(bytes, other_bytes, 8);
    if second.is_ne() {
        return second;
    }
    // the last eight of the 22, two of which are compared already
    let last = cmp_word(bytes, other_bytes, SHORT - 8);
    if last.is_ne() {
        return last;
    }
    len.cmp(&other_len)
}

impl SortKey {
    /// The name. It takes memory where the key has more than 22 bytes, or the dup any.
    pub fn new(alloc: Global, name: Name) -> Result<SortKey, AllocError>
        ensures { IfOk result (λ key. key ≡ name) }
    {
        if name.key.len() <= SHORT && name.dup.is_empty() {
            return Ok(short(name.key.as_slice()));
        }
        let head = padded(name.key.as_slice());
        Ok(SortKey {
            held: HeldName::Long(head, Box::new(alloc, name)?),
        })
    }

    /// The name of a record of that key in a plain database. It takes memory where the key has more
    /// than 22 bytes.
    pub fn plain(alloc: Global, key: &[u8]) -> Result<SortKey, AllocError>
        ensures { IfOk result (λ name. name ≡ record { key = key.now; dup = [] }) }
    {
        if key.len() <= SHORT {
            return Ok(short(key));
        }
        let name = Name {
            key: Octets::from_slice(alloc, key)?,
            dup: Octets::new(alloc),
        };
        SortKey::new(alloc, name)
    }

    /// The name's key.
    pub fn key(&self) -> &[u8]
        ensures { result.now ≡ self.now.key }
    {
        match &self.held {
            HeldName::Short(len, bytes) => &bytes[..*len as usize],
            HeldName::Long(_, name) => name.key.as_slice(),
        }
    }

    /// The name's dup.
    pub fn dup(&self) -> &[u8]
        ensures { result.now ≡ self.now.dup }
    {
        match &self.held {
            HeldName::Short(..) => &[],
            HeldName::Long(_, name) => name.dup.as_slice(),
        }
    }

    /// A copy of the name.
    pub fn to_name(&self, alloc: Global) -> Result<Name, AllocError>
        ensures { IfOk result (λ name. name ≡ self.now) }
    {
        Ok(Name {
            key: Octets::from_slice(alloc, self.key())?,
            dup: Octets::from_slice(alloc, self.dup())?,
        })
    }

    /// The same name. It takes memory where the key has more than 22 bytes, or the dup any.
    pub fn copy(&self, alloc: Global) -> Result<SortKey, AllocError>
        ensures { IfOk result (λ copy. copy ≡ self.now) }
    {
        let held = match &self.held {
            HeldName::Short(len, bytes) => return Ok(short(&bytes[..*len as usize])),
            HeldName::Long(_, name) => copy_of(&**name)?,
        };
        SortKey::new(alloc, held)
    }

    // The key's first bytes, with zeros behind fewer.
    fn head(&self) -> &[u8]
        ensures { result.now ≡ padded_to 15 self.now.key }
    {
        match &self.held {
            HeldName::Short(_, bytes) => &bytes[..HEAD],
            HeldName::Long(head, _) => head,
        }
    }

    // The order of names one of which is long. It is called, so that the order of short ones is small enough to
    // stand in the map's own loops.
    #[inline(never)]
    fn cmp_long(&self, other: &SortKey) -> Ordering
        ensures { result ≡ name_cmp self.now other.now }
    {
        match cmp_bytes(self.head(), other.head()) {
            Ordering::Equal => {
                cmp_bytes(self.key(), other.key()).then(cmp_bytes(self.dup(), other.dup()))
            }
            order => order,
        }
    }
}

impl PartialEq for SortKey {
    ghost use Rattle.std.specs.Ordering.{eq_by_cmp};
    ghost use Rattle.std.specs.Cmp.{partial_equiv_from_equiv};
    ghost use Rattle.std.proofs.lemmas.Cmp.{eq_by_cmp_equiv};
    ghost use Rattle.record_map.specs.Held.{names_are_ordered};
    ghost use Rattle.je_order.specs.Order.{name_cmp};

    ghost eq = { eq_by_cmp name_cmp };

    ghost laws = { partial_equiv_from_equiv (eq_by_cmp_equiv names_are_ordered) };

    fn eq(&self, other: &SortKey) -> bool {
        self.cmp(other).is_eq()
    }
}

impl Eq for SortKey {
    ghost use Rattle.std.proofs.lemmas.Cmp.{eq_by_cmp_equiv};
    ghost use Rattle.record_map.specs.Held.{names_are_ordered};

    ghost laws = { eq_by_cmp_equiv names_are_ordered };
}

impl PartialOrd for SortKey {
    ghost use Rattle.std.specs.Ordering.{as_partial_cmp};
    ghost use Rattle.std.specs.Cmp.{partial_order_from_total};
    ghost use Rattle.record_map.specs.Held.{names_are_ordered};
    ghost use Rattle.je_order.specs.Order.{name_cmp};

    ghost partial_cmp = { as_partial_cmp name_cmp };

    ghost laws = { partial_order_from_total names_are_ordered };

    fn partial_cmp(&self, other: &SortKey) -> Option<Ordering> {
        Some(self.cmp(other))
    }
}

impl Ord for SortKey {
    ghost use Rattle.std.proofs.Common.{refl};
    ghost use Rattle.record_map.specs.Held.{names_are_ordered};
    ghost use Rattle.je_order.specs.Order.{name_cmp};

    ghost cmp = { name_cmp };

    ghost total = { names_are_ordered };

    ghost matches_partial_cmp = { λ x y. refl };

    ghost matches_eq = { λ x y. refl };

    #[inline]
    fn cmp(&self, other: &SortKey) -> Ordering {
        match (&self.held, &other.held) {
            (HeldName::Short(len, bytes), HeldName::Short(other_len, other_bytes)) => {
                cmp_short(*len, bytes, *other_len, other_bytes)
            }
            _ => self.cmp_long(other),
        }
    }
}
