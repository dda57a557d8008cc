// Writing a dump.
ghost use Rattle.std.specs.Prelude.{◌≡◌};
ghost use Rattle.std.specs.List.{flat_map};
ghost use Rattle.text_out.specs.OutBuffer.{Adds, point};
ghost use Rattle.dump_text.specs.Values.{printed_byte};
ghost use Rattle.dump_text.specs.Text.{dupsort_line, end_text, format_line, header_text, pair_text, shown_bytes, shown_line};

use je_io::Sink;
use text_out::{OutBuffer, put_digits};

fn format_line(printed: bool) -> &'static [u8]
    ensures { result.now ≡ format_line printed }
{
    if printed {
        b"format=print\n"
    } else {
        b"format=bytevalue\n"
    }
}

fn dupsort_line(dup: bool) -> &'static [u8]
    ensures { result.now ≡ dupsort_line dup }
{
    if dup { b"dupsort=1\n" } else { b"dupsort=0\n" }
}

/// Sends the header of a dump: whether bytes are printed, and whether the database has sorted duplicates.
pub fn put_header<K: Sink>(buffer: &mut OutBuffer, out: &mut K, printed: bool, dup: bool)
    ensures { Adds (point (K.written out.old) (K.faults out.old) buffer.old)
        (point (K.written out.new) (K.faults out.new) buffer.new)
        (header_text printed dup) }
{
    buffer.put(out, b"VERSION=3\n");
    buffer.put(out, format_line(printed));
    buffer.put(out, b"type=btree\n");
    buffer.put(out, dupsort_line(dup));
    buffer.put(out, b"HEADER=END\n");
}

// Sends a byte as it is printed.
fn put_printed_byte<K: Sink>(buffer: &mut OutBuffer, out: &mut K, byte: u8)
    ensures { Adds (point (K.written out.old) (K.faults out.old) buffer.old)
        (point (K.written out.new) (K.faults out.new) buffer.new)
        (printed_byte byte) }
{
    if byte == 92 {
        buffer.put(out, b"\\\\");
    } else if byte >= 32 && byte <= 126 {
        buffer.put_byte(out, byte);
    } else {
        buffer.put_byte(out, 92);
        put_digits(buffer, out, [byte].as_slice());
    }
}

fn put_printed<K: Sink>(buffer: &mut OutBuffer, out: &mut K, bytes: &[u8])
    ensures { Adds (point (K.written out.old) (K.faults out.old) buffer.old)
        (point (K.written out.new) (K.faults out.new) buffer.new)
        (flat_map printed_byte bytes.now) }
{
    for byte in bytes {
        put_printed_byte(buffer, out, *byte);
    }
}

fn put_shown<K: Sink>(buffer: &mut OutBuffer, out: &mut K, printed: bool, bytes: &[u8])
    ensures { Adds (point (K.written out.old) (K.faults out.old) buffer.old)
        (point (K.written out.new) (K.faults out.new) buffer.new)
        (shown_bytes printed bytes.now) }
{
    if printed {
        put_printed(buffer, out, bytes);
    } else {
        put_digits(buffer, out, bytes);
    }
}

fn put_shown_line<K: Sink>(buffer: &mut OutBuffer, out: &mut K, printed: bool, bytes: &[u8])
    ensures { Adds (point (K.written out.old) (K.faults out.old) buffer.old)
        (point (K.written out.new) (K.faults out.new) buffer.new)
        (shown_line printed bytes.now) }
{
    buffer.put_byte(out, b' ');
    put_shown(buffer, out, printed, bytes);
    buffer.put_byte(out, b'\n');
}

/// Sends a pair: a line for its key, and one for its data.
pub fn put_pair<K: Sink>(
    buffer: &mut OutBuffer,
    out: &mut K,
    printed: bool,
    key: &[u8],
    value: &[u8],
)
    ensures { Adds (point (K.written out.old) (K.faults out.old) buffer.old)
        (point (K.written out.new) (K.faults out.new) buffer.new)
        (pair_text printed (key.now, value.now)) }
{
    put_shown_line(buffer, out, printed, key);
    put_shown_line(buffer, out, printed, value);
}

/// Sends the end of a dump.
pub fn put_end<K: Sink>(buffer: &mut OutBuffer, out: &mut K)
    ensures { Adds (point (K.written out.old) (K.faults out.old) buffer.old)
        (point (K.written out.new) (K.faults out.new) buffer.new)
        end_text }
{
    buffer.put(out, b"DATA=END\n");
}
