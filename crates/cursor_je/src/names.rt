// The trait of views of the occupied names of a database.
ghost use Rattle.std.specs.Prelude.{◌≡◌, List as Items, option_map, find, IfOk, not};
ghost use Rattle.std.specs.List.Sorted.{IsStrictlySortedBy};
ghost use Rattle.je_order.specs.Edges.{is_below};
ghost use Rattle.je_order.specs.Order.{name_cmp};
ghost use Rattle.je_order.specs.declared.name.Name.{Name as OneName};
ghost use Rattle.cursor_je.specs.Looks.{name_in, edge_in};

use crate::{NameEdge, NameRef};
use std::alloc::{AllocError, Global};

/// The occupied names of one database: those that have a record, or that an active transaction wrote. The call is one
/// look-up; its only error is out of memory.
pub trait Names {
    /// The names, in order.
    ghost names_of: { Self → Items OneName };

    /// They rise.
    ghost names_rise: { (view : Self) → IsStrictlySortedBy name_cmp (names_of view) };

    /// The first name that is not below an edge.
    fn first_name(
        &self,
        alloc: Global,
        from: NameEdge<'_>,
    ) -> Result<Option<NameRef<'_>>, AllocError>
        ensures { IfOk result (λ found. option_map name_in found ≡ find (λ (n : OneName). not (is_below (edge_in from.entry) n)) (names_of self.now)) };
}
