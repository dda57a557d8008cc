// The keys of a scan.
ghost use Rattle.std.specs.Prelude.{◌≡◌};
ghost use Rattle.jalibsuk.specs.Scans.{has_key};

use je_order::cmp_bytes;

/// The keys whose records a scan gives, in the order of unsigned bytes.
#[derive(Clone, Copy, Debug)]
pub enum Keys<'k> {
    All,
    /// This key and greater ones.
    From(&'k [u8]),
    /// Those below this key.
    Before(&'k [u8]),
    /// The first key and greater ones, below the second key.
    Between(&'k [u8], &'k [u8]),
}

// Whether a key is one of them.
pub(crate) fn has_key(keys: &Keys, key: &[u8]) -> bool
    ensures { result ≡ has_key keys.now key.now }
{
    match keys {
        Keys::All => true,
        Keys::From(from) => cmp_bytes(key, from).is_ge(),
        Keys::Before(to) => cmp_bytes(key, to).is_lt(),
        Keys::Between(from, to) => cmp_bytes(key, from).is_ge() && cmp_bytes(key, to).is_lt(),
    }
}
