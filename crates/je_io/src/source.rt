// Where bytes come from.
ghost use Rattle.std.specs.Prelude.{◌≡◌, ◌≤◌, ℕ, List, Option, length, IfOk, OnErr};
ghost use Rattle.je_order.specs.Counts.{HasRisen};
ghost use Rattle.je_io.specs.Source.{Takes};

use crate::Failed;

/// Bytes from outside, read in pieces.
pub trait Source {
    // the bytes that reads will give from here on, if the source is observable
    ghost left: { Self → Option (List ℕ) };
    // how many faults there were
    ghost faults: { Self → ℕ };

    /// Reads some bytes into the front of the piece and gives their number. 0 for a piece with room is
    /// the end of the input. `Failed` leaves what is left as it was; what stands in the piece is then
    /// open, as is all behind the bytes read of an unobservable source.
    fn read(&mut self, into: &mut [u8]) -> Result<usize, Failed>
        ensures bound { IfOk result (λ count. count ≤ length into.new) }
        ensures observed { IfOk result (Takes (left self.old) (left self.new) into.old into.new) }
        ensures kept { OnErr result (left self.new ≡ left self.old) }
        ensures never_falls { faults self.old ≤ faults self.new }
        ensures cause { OnErr result (HasRisen (faults self.old) (faults self.new)) };

    /// The count of faults. It never falls, and stands still at its last value.
    fn faults(&self) -> u64
        ensures { result ≡ faults self.now };
}
