// Writing all of some bytes.
ghost use Rattle.std.specs.Prelude.{◌≤◌, OnOk, OnErr};
ghost use Rattle.je_order.specs.Counts.{HasRisen};
ghost use Rattle.je_io.specs.Sink.{Gains, GainsPart};

use crate::{Failed, Sink};

/// Writes all the bytes. After `Failed` the first of them were written, any number of them.
pub fn write_all<K: Sink>(output: &mut K, bytes: &[u8]) -> Result<(), Failed>
    ensures observed { OnOk result (Gains (K.written output.old) (K.written output.new) bytes.now) }
    ensures part { OnErr result (GainsPart (K.written output.old) (K.written output.new) bytes.now) }
    ensures never_falls { K.faults output.old ≤ K.faults output.new }
    ensures cause { OnErr result (HasRisen (K.faults output.old) (K.faults output.new)) }
{
    let mut done = 0;
    while done < bytes.len() {
        done += output.write(&bytes[done..])?;
    }
    Ok(())
}
