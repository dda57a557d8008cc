// What an index is made of.
ghost use Rattle.std.specs.Prelude.{◌≡◌};

use crate::Extract;
use je_order::{Exact, Word, copy_of};
use std::alloc::AllocError;
use std::marker::Model;

/// What an index is made of: the plain database whose records it finds, its primary, and the key that
/// it has for each (Getting Started Guide, "Secondary Databases"). A slice in it has 1 to 4,096 bytes and
/// begins at byte 65,535 or before it, which whoever makes an `Index` has to show.
#[derive(Debug, Drop, PartialEq, Eq)]
pub struct Index {
    pub primary: Word,
    pub extract: Extract,
}

impl Model for Index {
    ghost use Rattle.store_model.specs.Making.{IndexParts, IsWithinLimits};

    ghost Value = { IndexParts };

    ghost view = { λ a. record { primary = a.primary; extract = a.extract } };

    ghost invariant = { λ a. IsWithinLimits a.extract };

    ghost inverse = { λ d. record { primary = d.primary; extract = d.extract } };
}

impl Clone for Index {
    ghost is_clone = { λ v w. w ≡ v };

    fn clone(&self) -> Result<Index, AllocError> {
        let primary = copy_of(&self.primary)?;
        let extract = self.extract;
        Ok(Index { primary, extract })
    }
}

impl Exact for Index {
    ghost exact = { λ x y h. h };
}
