// A log sequence number.
ghost use Rattle.std.specs.Prelude.{◌≡◌, ◌+◌, ◌*◌, ◌/◌, ◌%◌, ◌^◌};

use crate::FileNo;
use std::fmt;
use std::marker::Model;

/// A log sequence number: the place of an entry, by its file and its offset there in bytes. It is seen
/// as the number `file * 2^32 + offset`, and LSNs are ordered as these numbers are, so by file first.
#[derive(Clone, Copy, Debug, PartialEq, Eq, PartialOrd, Ord, Hash)]
pub struct Lsn {
    number: u64,
}

impl Model for Lsn {
    ghost use Rattle.std.specs.Prelude.{ℕ, ◌<◌, ◌^◌};

    ghost Value = { ℕ };

    ghost view = { λ a. a.number };

    ghost inverse = { λ n. record { number = n } };
}

impl Lsn {
    pub fn new(file: FileNo, offset: u32) -> Lsn
        ensures { result ≡ file.0 * 2 ^ 32 + offset }
    {
        Lsn {
            number: u64::from(file.0) * 0x1_0000_0000 + u64::from(offset),
        }
    }

    /// The LSN with this number.
    pub fn from_u64(number: u64) -> Lsn
        ensures { result ≡ number }
    {
        Lsn { number }
    }

    pub fn file(self) -> FileNo
        ensures { result.0 ≡ self / 2 ^ 32 }
    {
        FileNo((self.number / 0x1_0000_0000) as u32)
    }

    pub fn offset(self) -> u32
        ensures { result ≡ self % 2 ^ 32 }
    {
        (self.number % 0x1_0000_0000) as u32
    }

    pub fn as_u64(self) -> u64
        ensures { result ≡ self }
    {
        self.number
    }
}

impl je_order::Exact for Lsn {
    ghost use Rattle.std.proofs.Common.{rules};

    ghost exact = { Prim.search rules };
}

impl fmt::Display for Lsn {
    ghost use Rattle.std.specs.Prelude.{Some, codes, ◌/◌, ◌%◌, ◌^◌, ◌++◌, false};
    ghost use Rattle.std.specs.Fmt.{radix_digits};

    ghost output = { λ l. Some (codes "0x" ++ radix_digits 16 false (l / 2 ^ 32) ++ codes "/0x" ++ radix_digits 16 false (l % 2 ^ 32)) };

    fn fmt<W: fmt::Write>(&self, f: &mut fmt::Formatter<W>) -> fmt::Result {
        write!(f, "0x{:x}/0x{:x}", self.file().0, self.offset())
    }
}
