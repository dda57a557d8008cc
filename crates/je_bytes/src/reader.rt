// Reading from the front of a slice.
ghost use Rattle.std.specs.Prelude.{◌≡◌, OnErr, IfOk, Some, None};
ghost use Rattle.std.specs.Int.{w16, w32, w64};
ghost use Rattle.je_bytes.specs.Reading.{byte_in, number_in, bytes_in};

use byteorder::{BigEndian, ByteOrder};
use std::marker::Model;

/// Fewer bytes are left than were asked for.
#[derive(Clone, Copy, Debug, PartialEq, Eq)]
pub struct Short;

/// Reads fields from the front of a slice, one after the other; numbers are big-endian. A contract sees
/// the bytes that are left. Nothing here takes memory.
#[derive(Debug, Drop)]
pub struct Reader<'a> {
    rest: &'a [u8],
}

impl<'a> Model for Reader<'a> {
    ghost use Rattle.std.specs.Prelude.{List, ℕ};

    ghost Value = { List ℕ };

    ghost view = { λ a. a.rest.now };
}

impl<'a> Reader<'a> {
    /// A reader of the whole slice.
    pub fn new(bytes: &'a [u8]) -> Reader<'a>
        ensures { result ≡ bytes.now }
    {
        Reader { rest: bytes }
    }

    /// The bytes that are left.
    pub fn rest(&self) -> &'a [u8]
        ensures { result.now ≡ self.now }
    {
        self.rest
    }

    /// The next `len` bytes. `Short` where fewer are left; the reader is then as before.
    pub fn take(&mut self, len: usize) -> Result<&'a [u8], Short>
        ensures ok { IfOk result (λ taken. bytes_in len self.old ≡ Some (taken.now, self.new)) }
        ensures short { OnErr result (bytes_in len self.old ≡ None) }
        ensures unchanged { OnErr result (self.new ≡ self.old) }
    {
        if self.rest.len() < len {
            return Err(Short);
        }
        let (taken, rest) = self.rest.split_at(len);
        self.rest = rest;
        Ok(taken)
    }

    /// The next byte. `Short` where none is left.
    pub fn u8(&mut self) -> Result<u8, Short>
        ensures ok { IfOk result (λ byte. byte_in self.old ≡ Some (byte, self.new)) }
        ensures short { OnErr result (byte_in self.old ≡ None) }
        ensures unchanged { OnErr result (self.new ≡ self.old) }
    {
        let taken = self.take(1)?;
        Ok(taken[0])
    }

    /// The number in the next 2 bytes. `Short` where fewer are left; the reader is then as before.
    pub fn u16(&mut self) -> Result<u16, Short>
        ensures ok { IfOk result (λ number. number_in w16 self.old ≡ Some (number, self.new)) }
        ensures short { OnErr result (number_in w16 self.old ≡ None) }
        ensures unchanged { OnErr result (self.new ≡ self.old) }
    {
        let taken = self.take(2)?;
        Ok(BigEndian::read_u16(taken))
    }

    /// The number in the next 4 bytes. `Short` where fewer are left; the reader is then as before.
    pub fn u32(&mut self) -> Result<u32, Short>
        ensures ok { IfOk result (λ number. number_in w32 self.old ≡ Some (number, self.new)) }
        ensures short { OnErr result (number_in w32 self.old ≡ None) }
        ensures unchanged { OnErr result (self.new ≡ self.old) }
    {
        let taken = self.take(4)?;
        Ok(BigEndian::read_u32(taken))
    }

    /// The number in the next 8 bytes. `Short` where fewer are left; the reader is then as before.
    pub fn u64(&mut self) -> Result<u64, Short>
        ensures ok { IfOk result (λ number. number_in w64 self.old ≡ Some (number, self.new)) }
        ensures short { OnErr result (number_in w64 self.old ≡ None) }
        ensures unchanged { OnErr result (self.new ≡ self.old) }
    {
        let taken = self.take(8)?;
        Ok(BigEndian::read_u64(taken))
    }
}
