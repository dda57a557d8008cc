// A sink over the runtime's output.
ghost use Rattle.std.specs.Prelude.{◌≡◌, None};
ghost use Rattle.std.specs.Io.{WritesAtMost};

use crate::{Failed, Sink};
use std::io;
use std::io::Write;

/// A sink over a writer of the runtime, as `std::io::writer(&rt)` is for the standard output. It is
/// not observable. Each error of the writer is a fault, and is counted; so is a write that takes no
/// byte of a piece that has some.
#[derive(Drop)]
pub struct StdSink<W: Write + Drop> {
    writer: W,
    faults: u64,
}

impl<W: Write + Drop> StdSink<W> {
    /// The writer as a sink, with no fault so far. It takes no memory.
    pub fn new(writer: W) -> StdSink<W>
        ensures { ⟦<StdSink<W> as Sink>⟧.faults result ≡ 0 }
    {
        StdSink { writer, faults: 0 }
    }
}

impl<W: Write + Drop> Sink for StdSink<W> {
    ghost written = { λ _. None };

    ghost faults = { λ s. s.faults };

    /// Each piece is flushed before it is answered.
    fn write(&mut self, from: &[u8]) -> Result<usize, Failed> {
        match write_flushed(&mut self.writer, from) {
            Ok(count) if count > 0 || from.is_empty() => Ok(count),
            _ => {
                self.faults = self.faults.saturating_add(1);
                Err(Failed)
            }
        }
    }

    fn faults(&self) -> u64 {
        self.faults
    }
}

// Writes some of the piece and flushes.
fn write_flushed<W: Write>(writer: &mut W, from: &[u8]) -> io::Result<usize>
    ensures { WritesAtMost result from.now }
{
    let count = writer.write(from)?;
    writer.flush()?;
    Ok(count)
}
