// The trait of views of a database's records.
ghost use Rattle.std.specs.Prelude.{◌≡◌, List as Items, IfOk};
ghost use Rattle.je_order.specs.Edges.Edge.{First, End};
ghost use Rattle.store_model.specs.declared.kind.Kind.{Kind as KindOf};
ghost use Rattle.store_model.specs.Store.{Pair, HasRisingNames};
ghost use Rattle.store_model.specs.Reads.{range, seen, at_name};
ghost use Rattle.store_model.specs.Reads.Way.{Lowest, Highest};
ghost use Rattle.cursor_je.specs.Looks.{name_in, edge_in, taken_in};

use crate::{NameEdge, NameRef, RecordRef};
use std::alloc::{AllocError, Global};
use store_model::Kind;

/// The records of one database as a caller sees them. Each call is one look-up; its only error is out
/// of memory.
pub trait View {
    /// The database's kind.
    ghost kind_of: { Self → KindOf };

    /// Its records, as pairs of key and data.
    ghost pairs_of: { Self → Items Pair };

    /// The names of the records rise.
    ghost rises: { (view : Self) → HasRisingNames (kind_of view) (pairs_of view) };

    /// The database's kind.
    fn kind(&self) -> Kind
        ensures { result ≡ kind_of self.now };

    /// The record of a name.
    fn record(&self, alloc: Global, name: NameRef<'_>) -> Result<Option<RecordRef<'_>>, AllocError>
        ensures { IfOk result (λ found. taken_in found ≡ at_name (kind_of self.now) (name_in name.entry) (pairs_of self.now)) };

    /// The first record that is not below an edge.
    fn first_from(
        &self,
        alloc: Global,
        from: NameEdge<'_>,
    ) -> Result<Option<RecordRef<'_>>, AllocError>
        ensures { IfOk result (λ found. taken_in found ≡ seen (kind_of self.now) Lowest (range (edge_in from.entry) End) (pairs_of self.now)) };

    /// The last record that is below an edge.
    fn last_below(
        &self,
        alloc: Global,
        upto: NameEdge<'_>,
    ) -> Result<Option<RecordRef<'_>>, AllocError>
        ensures { IfOk result (λ found. taken_in found ≡ seen (kind_of self.now) Highest (range First (edge_in upto.entry)) (pairs_of self.now)) };
}
