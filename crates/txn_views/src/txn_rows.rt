// The records of one database, as a transaction sees them.
ghost use Rattle.std.specs.Prelude.{◌≡◌, true, option_map};
ghost use Rattle.std.specs.List.Sorted.{IsStrictlySortedBy-prop};
ghost use Rattle.cursor_je.specs.Looks.{name_in};
ghost use Rattle.record_map.specs.Cells.{IsRising};
ghost use Rattle.log_replay.specs.Rows.{are_right};
ghost use Rattle.txn_views.specs.Seen.{seen_rows};

use crate::reading;
use crate::viewer::Viewer;
use cursor_je::{NameEdge, NameRef, Names, RecordRef, View};
use record_map::{Cell, SortKey};
use record_tree::Records;
use std::alloc::{AllocError, Global};
use store_model::Kind;
use txn_core::found_record::record_found;
use txn_core::held_edge::{edge_ref, held_edge, held_name};
use txn_core::reading::cell_from;

/// The records of the database of a number and a kind that a transaction sees, and its occupied names.
#[derive(Drop)]
pub struct TxnRows<'a, T: Records> {
    pub trees: &'a T,
    pub number: u32,
    pub kind: Kind,
    pub viewer: Viewer,
    ghost right: { are_right kind (seen_rows viewer.level viewer.txn (T.cells trees.now number)) ≡ true },
    ghost rising: { IsRising (T.cells trees.now number) } by { IsStrictlySortedBy-prop _ _ },
}

impl<T: Records> View for TxnRows<'_, T> {
    ghost use Rattle.std.specs.Prelude.{map};
    ghost use Rattle.log_replay.specs.Rows.{pair_of};
    ghost use Rattle.log_replay.proofs.PlanViews.{rising_pairs};
    ghost use Rattle.txn_views.specs.Seen.{seen_rows, seen_rises};

    ghost kind_of = { λ v. v.kind };

    ghost pairs_of = { λ v. map (pair_of v.kind) (seen_rows v.viewer.level v.viewer.txn (T.cells v.trees.now v.number)) };

    ghost rises = { λ v. rising_pairs v.kind (seen_rows v.viewer.level v.viewer.txn (T.cells v.trees.now v.number)) v.right
        (seen_rises v.viewer.level v.viewer.txn (T.cells v.trees.now v.number) v.rising) };

    fn kind(&self) -> Kind {
        self.kind
    }

    fn record(
        &self,
        alloc: Global,
        name: NameRef<'_>,
    ) -> Result<Option<RecordRef<'_>>, AllocError> {
        let name = held_name(alloc, name)?;
        Ok(record_found(
            self.kind,
            reading::record(self.trees, self.viewer, self.number, &name),
        ))
    }

    fn first_from(
        &self,
        alloc: Global,
        from: NameEdge<'_>,
    ) -> Result<Option<RecordRef<'_>>, AllocError> {
        let from = held_edge(alloc, from)?;
        Ok(record_found(
            self.kind,
            reading::next(self.trees, self.viewer, self.number, edge_ref(&from)),
        ))
    }

    fn last_below(
        &self,
        alloc: Global,
        upto: NameEdge<'_>,
    ) -> Result<Option<RecordRef<'_>>, AllocError> {
        let upto = held_edge(alloc, upto)?;
        Ok(record_found(
            self.kind,
            reading::last_below(self.trees, self.viewer, self.number, edge_ref(&upto)),
        ))
    }
}

// A name that was found, by its key and its dup.
fn name_of_key<'a>(name: &'a SortKey) -> NameRef<'a>
    ensures { name_in result ≡ name.now }
{
    NameRef {
        key: name.key(),
        dup: name.dup(),
    }
}

fn name_found<'a>(found: Option<(&'a SortKey, &'a Cell)>) -> Option<NameRef<'a>>
    ensures { option_map name_in result ≡ option_map (λ p. p.0.now) found.entry }
{
    match found {
        None => None,
        Some((name, _)) => Some(name_of_key(name)),
    }
}

impl<T: Records> Names for TxnRows<'_, T> {
    ghost use Rattle.std.specs.Map.{keys_of};

    ghost names_of = { λ v. keys_of (T.cells v.trees.now v.number) };

    ghost names_rise = { λ v. v.rising };

    fn first_name(
        &self,
        alloc: Global,
        from: NameEdge<'_>,
    ) -> Result<Option<NameRef<'_>>, AllocError> {
        let from = held_edge(alloc, from)?;
        Ok(name_found(cell_from(self.trees, self.number, edge_ref(&from))))
    }
}
