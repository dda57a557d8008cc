// A buffer of bytes in front of a sink.
ghost use Rattle.std.specs.Prelude.{◌≡◌, ◌<◌, ◌≤◌, ◌+◌, ◌∷◌, ◌++◌, [], length, false};
ghost use Rattle.text_out.specs.OutBuffer.{Adds, held_of, point};

use je_io::{Sink, write_all};
use std::marker::Model;

const BUFFER_LEN: usize = 4_096;

/// Bytes on their way to a sink, at most 4,096 of them. A write that fails is remembered, and nothing is written after it.
#[derive(Drop)]
pub struct OutBuffer {
    bytes: [u8; BUFFER_LEN],
    len: usize,
    failed: bool,
}

impl Model for OutBuffer {
    ghost use Rattle.std.specs.Prelude.{◌≤◌, take};
    ghost use Rattle.text_out.specs.OutBuffer.{Held};

    ghost Value = { Held };

    ghost view = { λ a. record { bytes = take a.len a.bytes; failed = a.failed } };

    ghost invariant = { λ a. a.len ≤ 4096 };
}

impl OutBuffer {
    /// An empty buffer.
    pub fn new() -> OutBuffer
        ensures bytes { result.bytes ≡ [] }
        ensures failed { result.failed ≡ false }
    {
        OutBuffer {
            bytes: [0; BUFFER_LEN],
            len: 0,
            failed: false,
        }
    }

    /// Whether a write has failed.
    pub fn has_failed(&self) -> bool
        ensures { result ≡ self.now.failed }
    {
        self.failed
    }

    /// Sends what the buffer holds to the sink.
    pub fn flush<K: Sink>(&mut self, out: &mut K)
        ensures adds { Adds (point (K.written out.old) (K.faults out.old) self.old)
            (point (K.written out.new) (K.faults out.new) self.new)
            [] }
        ensures empty { self.new.bytes ≡ [] }
    {
        self.failed = write_out(out, &self.bytes[..self.len], self.failed);
        self.len = 0;
    }

    // Sends what the buffer holds where it is full.
    fn make_room<K: Sink>(&mut self, out: &mut K)
        ensures adds { Adds (point (K.written out.old) (K.faults out.old) self.old)
            (point (K.written out.new) (K.faults out.new) self.new)
            [] }
        ensures room { length self.new.bytes < 4096 }
    {
        if self.len == BUFFER_LEN {
            self.flush(out);
        }
    }

    /// Sends a byte.
    pub fn put_byte<K: Sink>(&mut self, out: &mut K, byte: u8)
        ensures { Adds (point (K.written out.old) (K.faults out.old) self.old)
            (point (K.written out.new) (K.faults out.new) self.new)
            (byte ∷ []) }
    {
        self.make_room(out);
        self.bytes[self.len] = byte;
        self.len += 1;
    }

    /// Sends bytes.
    pub fn put<K: Sink>(&mut self, out: &mut K, bytes: &[u8])
        ensures { Adds (point (K.written out.old) (K.faults out.old) self.old)
            (point (K.written out.new) (K.faults out.new) self.new)
            bytes.now }
    {
        if bytes.len() <= BUFFER_LEN - self.len {
            self.hold(bytes);
        } else {
            self.put_each(out, bytes);
        }
    }

    // Puts bytes into the buffer, which has room for them.
    fn hold(&mut self, bytes: &[u8])
        requires { length self.old.bytes + length bytes.now ≤ 4096 }
        ensures { self.new ≡ held_of (self.old.bytes ++ bytes.now) self.old.failed }
    {
        let end = self.len + bytes.len();
        self.bytes[self.len..end].copy_from_slice(bytes);
        self.len = end;
    }

    // Sends bytes one by one.
    fn put_each<K: Sink>(&mut self, out: &mut K, bytes: &[u8])
        ensures { Adds (point (K.written out.old) (K.faults out.old) self.old)
            (point (K.written out.new) (K.faults out.new) self.new)
            bytes.now }
    {
        for byte in bytes {
            self.put_byte(out, *byte);
        }
    }
}

// Writes the bytes, unless a write has failed; it answers whether one has.
fn write_out<K: Sink>(out: &mut K, bytes: &[u8], failed: bool) -> bool
    ensures { Adds (point (K.written out.old) (K.faults out.old) (held_of bytes.now failed))
        (point (K.written out.new) (K.faults out.new) (held_of [] result))
        [] }
{
    if failed {
        return true;
    }
    match write_all(out, bytes) {
        Ok(()) => false,
        Err(_) => true,
    }
}
