// The pieces of a report's lines.
ghost use Rattle.std.specs.Prelude.{◌≡◌, ◌++◌, codes, decimal};
ghost use Rattle.text_out.specs.OutBuffer.{Adds, point};
ghost use Rattle.script_text.specs.Report.{bytes_text, line_text};

use je_io::Sink;
use text_out::{OutBuffer, put_digits, put_number};

// Sends bytes as hexadecimal digits, or `-` where there are none.
pub fn put_bytes<K: Sink>(buffer: &mut OutBuffer, out: &mut K, bytes: &[u8])
    ensures { Adds (point (K.written out.old) (K.faults out.old) buffer.old)
        (point (K.written out.new) (K.faults out.new) buffer.new)
        (bytes_text bytes.now) }
{
    if bytes.is_empty() {
        buffer.put(out, b"-");
    } else {
        put_digits(buffer, out, bytes);
    }
}

// Sends what stands before the text in a line.
pub fn put_front<K: Sink>(buffer: &mut OutBuffer, out: &mut K, session: u8, line: u32)
    ensures { Adds (point (K.written out.old) (K.faults out.old) buffer.old)
        (point (K.written out.new) (K.faults out.new) buffer.new)
        (decimal line ++ codes " s" ++ decimal session ++ codes " ") }
{
    put_number(buffer, out, u64::from(line));
    buffer.put(out, b" s");
    put_number(buffer, out, u64::from(session));
    buffer.put(out, b" ");
}

// Sends a line with that text.
pub fn put_line<K: Sink>(buffer: &mut OutBuffer, out: &mut K, session: u8, line: u32, text: &[u8])
    ensures { Adds (point (K.written out.old) (K.faults out.old) buffer.old)
        (point (K.written out.new) (K.faults out.new) buffer.new)
        (line_text session line text.now) }
{
    put_front(buffer, out, session, line);
    buffer.put(out, text);
    buffer.put(out, b"\n");
}
