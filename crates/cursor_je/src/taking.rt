// What a call finds where it looks.
ghost use Rattle.std.specs.Prelude.{◌≡◌, [], not, filter, map, IfOk};
ghost use Rattle.je_order.specs.Edges.{is_below};
ghost use Rattle.store_model.specs.Store.{named, name_of};
ghost use Rattle.store_model.specs.Reads.{range, just, is_within, taken_by, seen, of_key, look};
ghost use Rattle.store_model.specs.Reads.Way.{Lowest, Highest};
ghost use Rattle.store_model.specs.Records.{all_of_key, look_of_put};
ghost use Rattle.cursor_je.specs.Looks.{edge_in, taken_in, pair_in, look_in, seen_by};

use crate::looking::{Looking, exactly, first_of_key};
use crate::name_ref::key_name;
use crate::record_ref::record_name;
use crate::{NameEdge, RecordRef, View};
use std::alloc::{AllocError, Global};
use store_model::{Kind, PutMode};

// Whether a record is below an edge.
fn is_record_below(kind: Kind, upto: NameEdge<'_>, found: &RecordRef<'_>) -> bool
    ensures { result ≡ is_below (edge_in upto.entry) (name_of kind (pair_in found.now)) }
{
    upto.is_above(&record_name(kind, found))
}

fn kept_below<'a>(
    kind: Kind,
    upto: NameEdge<'_>,
    found: Option<RecordRef<'a>>,
) -> Option<RecordRef<'a>>
    ensures { taken_in result ≡ filter (λ p. is_below (edge_in upto.entry) (name_of kind p)) (taken_in found.entry) }
{
    match found {
        None => None,
        Some(record) => {
            if is_record_below(kind, upto, &record) {
                Some(record)
            } else {
                None
            }
        }
    }
}

fn kept_above<'a>(
    kind: Kind,
    from: NameEdge<'_>,
    found: Option<RecordRef<'a>>,
) -> Option<RecordRef<'a>>
    ensures { taken_in result ≡ filter (λ p. not (is_below (edge_in from.entry) (name_of kind p))) (taken_in found.entry) }
{
    match found {
        None => None,
        Some(record) => {
            if is_record_below(kind, from, &record) {
                None
            } else {
                Some(record)
            }
        }
    }
}

/// The first record from an edge on and below another one.
pub fn lowest<'a, V: View>(
    alloc: Global,
    view: &'a V,
    from: NameEdge<'_>,
    upto: NameEdge<'_>,
) -> Result<Option<RecordRef<'a>>, AllocError>
    ensures { IfOk result (λ found. taken_in found ≡ seen (V.kind_of view.now) Lowest (range (edge_in from.entry) (edge_in upto.entry)) (V.pairs_of view.now)) }
{
    let kind = view.kind();
    let found = view.first_from(alloc, from)?;
    Ok(kept_below(kind, upto, found))
}

/// The last record from an edge on and below another one.
pub fn highest<'a, V: View>(
    alloc: Global,
    view: &'a V,
    from: NameEdge<'_>,
    upto: NameEdge<'_>,
) -> Result<Option<RecordRef<'a>>, AllocError>
    ensures { IfOk result (λ found. taken_in found ≡ seen (V.kind_of view.now) Highest (range (edge_in from.entry) (edge_in upto.entry)) (V.pairs_of view.now)) }
{
    let kind = view.kind();
    let found = view.last_below(alloc, upto)?;
    Ok(kept_above(kind, from, found))
}

/// The record that a look takes.
pub fn take<'a, V: View>(
    alloc: Global,
    view: &'a V,
    look: Looking<'_>,
) -> Result<Option<RecordRef<'a>>, AllocError>
    ensures { IfOk result (λ found. taken_in found ≡ seen_by (V.kind_of view.now) (look_in look.entry) (V.pairs_of view.now)) }
{
    match look {
        Looking::Nowhere => Ok(None),
        Looking::One(name) => view.record(alloc, name),
        Looking::Lowest(from, upto) => lowest(alloc, view, from, upto),
        Looking::Highest(from, upto) => highest(alloc, view, from, upto),
    }
}

// All records of a key, in a database of sorted duplicates.
fn walk_key<'a, V: View>(
    alloc: Global,
    view: &'a V,
    key: &'a [u8],
) -> Result<Vec<RecordRef<'a>>, AllocError>
    ensures { IfOk result (λ taken. map pair_in taken.items ≡ filter (λ p. is_within (of_key key.now) (name_of (V.kind_of view.now) p)) (V.pairs_of view.now)) }
{
    let kind = view.kind();
    let mut taken = Vec::new(alloc);
    let mut from = NameEdge::At(key_name(key));
    'records: while let Some(found) = lowest(alloc, view, from, NameEdge::BehindKey(key))? {
        taken.push(found)?;
        from = NameEdge::Behind(record_name(kind, &found));
    }
    Ok(taken)
}

// The one record of a key, in a plain database.
fn take_one<'a, V: View>(
    alloc: Global,
    view: &'a V,
    key: &[u8],
) -> Result<Vec<RecordRef<'a>>, AllocError>
    ensures { IfOk result (λ taken. map pair_in taken.items ≡ seen_by (V.kind_of view.now) (look Lowest (just (named key.now []))) (V.pairs_of view.now)) }
{
    let mut taken = Vec::new(alloc);
    match take(alloc, view, Looking::One(key_name(key)))? {
        None => Ok(taken),
        Some(found) => {
            taken.push(found)?;
            Ok(taken)
        }
    }
}

/// All records of a key.
pub fn take_key<'a, V: View>(
    alloc: Global,
    view: &'a V,
    key: &'a [u8],
) -> Result<Vec<RecordRef<'a>>, AllocError>
    ensures { IfOk result (λ taken. map pair_in taken.items ≡ seen_by (V.kind_of view.now) (all_of_key (V.kind_of view.now) key.now) (V.pairs_of view.now)) }
{
    match view.kind() {
        Kind::Plain => take_one(alloc, view, key),
        Kind::Dup => walk_key(alloc, view, key),
    }
}

/// The first record that a put by its mode looks for.
pub fn take_put<'a, V: View>(
    alloc: Global,
    view: &'a V,
    mode: PutMode,
    key: &[u8],
    value: &[u8],
) -> Result<Option<RecordRef<'a>>, AllocError>
    ensures { IfOk result (λ found. taken_in found ≡ taken_by Lowest (seen_by (V.kind_of view.now) (look_of_put mode (V.kind_of view.now) key.now value.now) (V.pairs_of view.now))) }
{
    let kind = view.kind();
    match mode {
        PutMode::Overwrite => Ok(None),
        PutMode::NoOverwrite => take(alloc, view, first_of_key(kind, key)),
        PutMode::NoDupData => take(alloc, view, exactly(kind, key, value)),
    }
}
