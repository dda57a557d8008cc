// Items of lists within bodies.
ghost use Rattle.std.specs.Prelude.{◌≡◌, length, vec_capacity, IfOk, MatchOption, Some, None};
ghost use Rattle.log_entry.specs.Writing.{Puts};

use je_bytes::Reader;
use std::alloc::{AllocError, Global};

// An item of a list within a body: how it is written and read, and which of two comes first.
pub(crate) trait Item: Drop {
    ghost use Rattle.std.specs.Prelude.{Bool, List, Option, ℕ};

    ghost IsItem: { Self → Type 0 };

    ghost item_bytes: { Self → List ℕ };

    ghost item_in: { List ℕ → Option (Self × List ℕ) };

    ghost before: { Self → Self → Bool };

    // The item that comes next, if one does.
    fn read(alloc: Global, reader: &mut Reader<'_>) -> Result<Option<Self>, AllocError>
        ensures { IfOk result (λ found. MatchOption found (item_in reader.old ≡ None) (λ item. item_in reader.old ≡ Some (item, reader.new))) };

    // Puts the item at the end.
    fn put(&self, out: &mut Vec<u8>) -> Result<(), AllocError>
        requires { IsItem self.now }
        ensures { Puts (item_bytes self.now) result out.old.items out.new.items (vec_capacity out.old) (vec_capacity out.new) };

    // How many bytes the item has.
    fn size(&self) -> u32
        requires { IsItem self.now }
        ensures { result ≡ length (item_bytes self.now) };

    // Whether the item comes before the other one.
    fn comes_before(&self, other: &Self) -> bool
        ensures { result ≡ before self.now other.now };
}
