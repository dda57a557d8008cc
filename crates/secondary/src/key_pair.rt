// A pair of an index, by reference.
ghost use Rattle.std.specs.Prelude.{◌≡◌};
ghost use Rattle.je_order.specs.Order.{name_cmp};
ghost use Rattle.secondary.specs.Pairs.{name_in};

use je_order::cmp_bytes;
use std::cmp::Ordering;

/// A pair of an index, whose bytes lie in the record that it is of: the key of the record's data, and the record's
/// own key.
#[derive(Clone, Copy)]
pub struct KeyPair<'a> {
    pub key: &'a [u8],
    pub primary_key: &'a [u8],
}

impl<'a> KeyPair<'a> {
    /// The order in which an index has its pairs.
    pub fn cmp_pair(&self, other: &KeyPair<'_>) -> Ordering
        ensures { result ≡ name_cmp (name_in self.now) (name_in other.now) }
    {
        cmp_bytes(self.key, other.key).then(cmp_bytes(self.primary_key, other.primary_key))
    }
}
