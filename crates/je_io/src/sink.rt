// Where bytes go.
ghost use Rattle.std.specs.Prelude.{◌≡◌, ◌<◌, ◌≤◌, ℕ, List, Option, length, take, IfOk, OnErr};
ghost use Rattle.je_order.specs.Counts.{HasRisen};
ghost use Rattle.je_io.specs.Sink.{Gains};

use crate::Failed;

/// Bytes to outside, written in pieces.
pub trait Sink {
    // the bytes that were written, if the sink is observable
    ghost written: { Self → Option (List ℕ) };
    // how many faults there were
    ghost faults: { Self → ℕ };

    /// Writes the first bytes of the piece, of a piece that has any at least one, and gives their
    /// number. After `Failed` nothing was written.
    fn write(&mut self, from: &[u8]) -> Result<usize, Failed>
        ensures bound { IfOk result (λ count. count ≤ length from.now) }
        ensures some { IfOk result (λ count. 0 < length from.now → 0 < count) }
        ensures observed { IfOk result (λ count. Gains (written self.old) (written self.new) (take count from.now)) }
        ensures kept { OnErr result (written self.new ≡ written self.old) }
        ensures never_falls { faults self.old ≤ faults self.new }
        ensures cause { OnErr result (HasRisen (faults self.old) (faults self.new)) };

    /// The count of faults. It never falls, and stands still at its last value.
    fn faults(&self) -> u64
        ensures { result ≡ faults self.now };
}
