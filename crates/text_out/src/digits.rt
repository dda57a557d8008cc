// Numbers and bytes as digits.
ghost use Rattle.std.specs.Prelude.{◌≤◌, length, decimal, false};
ghost use Rattle.std.specs.Fmt.{digits as digits_in};
ghost use Rattle.hex.specs.Hex.{encode_lower};
ghost use Rattle.text_out.specs.OutBuffer.{Adds, point};
ghost use Rattle.text_out.specs.Lsn.{lsn_text};

use crate::hexadecimal::write_hexadecimal;
use crate::out_buffer::OutBuffer;
use itoa::Buffer;
use je_io::Sink;
use je_lsn::Lsn;

/// Sends a number's decimal digits.
pub fn put_number<K: Sink>(buffer: &mut OutBuffer, out: &mut K, number: u64)
    ensures { Adds (point (K.written out.old) (K.faults out.old) buffer.old)
        (point (K.written out.new) (K.faults out.new) buffer.new)
        (decimal number) }
{
    let mut digits = Buffer::new();
    buffer.put(out, digits.format(number).as_bytes());
}

// How many bytes are written as digits at a time.
const PIECE_LEN: usize = 32;

// Sends a few bytes as digits.
fn put_piece<K: Sink>(buffer: &mut OutBuffer, out: &mut K, bytes: &[u8])
    requires { length bytes.now ≤ 32 }
    ensures { Adds (point (K.written out.old) (K.faults out.old) buffer.old)
        (point (K.written out.new) (K.faults out.new) buffer.new)
        (encode_lower bytes.now) }
{
    let mut digits = [0u8; 2 * PIECE_LEN];
    let into = &mut digits[..2 * bytes.len()];
    let _ = hex::encode_to_slice(bytes, into);
    buffer.put(out, into);
}

/// Sends bytes as lower-case hexadecimal digits, two for each byte.
pub fn put_digits<K: Sink>(buffer: &mut OutBuffer, out: &mut K, bytes: &[u8])
    ensures { Adds (point (K.written out.old) (K.faults out.old) buffer.old)
        (point (K.written out.new) (K.faults out.new) buffer.new)
        (encode_lower bytes.now) }
{
    let mut rest = bytes;
    while rest.len() > PIECE_LEN {
        put_piece(buffer, out, &rest[..PIECE_LEN]);
        rest = &rest[PIECE_LEN..];
    }
    put_piece(buffer, out, rest);
}

/// Sends a number's lower-case hexadecimal digits, without leading zeros.
pub fn put_hexadecimal<K: Sink>(buffer: &mut OutBuffer, out: &mut K, number: u32)
    ensures { Adds (point (K.written out.old) (K.faults out.old) buffer.old)
        (point (K.written out.new) (K.faults out.new) buffer.new)
        (digits_in 16 false number) }
{
    let mut piece = [0u8; 8];
    let start = write_hexadecimal(number, &mut piece);
    buffer.put(out, &piece[start..]);
}

/// Sends an LSN: its file and its offset there, in hexadecimal digits.
pub fn put_lsn<K: Sink>(buffer: &mut OutBuffer, out: &mut K, at: Lsn)
    ensures { Adds (point (K.written out.old) (K.faults out.old) buffer.old)
        (point (K.written out.new) (K.faults out.new) buffer.new)
        (lsn_text at) }
{
    buffer.put(out, b"0x");
    put_hexadecimal(buffer, out, at.file().0);
    buffer.put(out, b"/0x");
    put_hexadecimal(buffer, out, at.offset());
}
