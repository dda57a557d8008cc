// The range in which a call looks, and what it passes there.
ghost use Rattle.std.specs.Prelude.{◌≡◌, IfOk};
ghost use Rattle.std.specs.Option.{option_copied};
ghost use Rattle.store_model.specs.Reads.{look, range};
ghost use Rattle.store_model.specs.Reads.Way.{Lowest, Highest};
ghost use Rattle.store_model.specs.Records.{all_of_key, look_of_put, look_at_key, look_of};
ghost use Rattle.cursor_je.specs.Looks.{edge_in, look_in};
ghost use Rattle.cursor_je.specs.Reaches.{reach_in, HasPassed};

use crate::looking::{Looking, exactly, first_of_key, look_at_place, look_of_motion};
use crate::name_ref::key_name;
use crate::record_ref::record_name;
use crate::taking::{highest, lowest};
use crate::{NameEdge, View};
use je_order::Name;
use std::alloc::{AllocError, Global};
use store_model::{Call, Kind, PutMode};

/// The range in which a call looks, by which of its records it takes.
#[derive(Clone, Copy)]
pub enum Reach<'a> {
    /// The first record from an edge on and below another one.
    Lowest(NameEdge<'a>, NameEdge<'a>),
    /// The last one there.
    Highest(NameEdge<'a>, NameEdge<'a>),
    /// All of them.
    Each(NameEdge<'a>, NameEdge<'a>),
}

/// What a call passed: the range, cut where a record was taken, and whether its upper end is such a record.
#[derive(Clone, Copy)]
pub struct Passed<'a> {
    pub from: NameEdge<'a>,
    pub upto: NameEdge<'a>,
    pub is_ended: bool,
}

// A look for one record as a range.
fn reach_by<'a>(look: Looking<'a>) -> Reach<'a>
    ensures { reach_in result ≡ look_in look.entry }
{
    match look {
        Looking::Nowhere => Reach::Each(NameEdge::First, NameEdge::First),
        Looking::One(name) => Reach::Lowest(NameEdge::At(name), NameEdge::Behind(name)),
        Looking::Lowest(from, upto) => Reach::Lowest(from, upto),
        Looking::Highest(from, upto) => Reach::Highest(from, upto),
    }
}

// All records of a key.
fn reach_of_key<'a>(kind: Kind, key: &'a [u8]) -> Reach<'a>
    ensures { reach_in result ≡ all_of_key kind key.now }
{
    match kind {
        Kind::Plain => reach_by(first_of_key(kind, key)),
        Kind::Dup => Reach::Each(NameEdge::At(key_name(key)), NameEdge::BehindKey(key)),
    }
}

// Where a put looks.
fn reach_of_put<'a>(mode: PutMode, kind: Kind, key: &'a [u8], value: &'a [u8]) -> Reach<'a>
    ensures { reach_in result ≡ look_of_put mode kind key.now value.now }
{
    match mode {
        PutMode::Overwrite => Reach::Each(NameEdge::First, NameEdge::First),
        PutMode::NoOverwrite => reach_of_key(kind, key),
        PutMode::NoDupData => reach_by(exactly(kind, key, value)),
    }
}

// Of the records at which the cursor stands.
fn reach_at_key<'a>(kind: Kind, at: Option<&'a Name>) -> Reach<'a>
    ensures { reach_in result ≡ look_at_key kind (option_copied at.entry) }
{
    match at {
        None => Reach::Each(NameEdge::First, NameEdge::First),
        Some(n) => reach_of_key(kind, n.key.as_slice()),
    }
}

/// Where a call looks, in a database of that kind, from where its cursor stands.
pub fn reach_of<'a>(kind: Kind, call: &'a Call, at: Option<&'a Name>) -> Reach<'a>
    ensures { reach_in result ≡ look_of kind call.now (option_copied at.entry) }
{
    match call {
        Call::Get { key, .. } => reach_by(first_of_key(kind, key.as_slice())),
        Call::GetBoth { key, value, .. } => {
            reach_by(exactly(kind, key.as_slice(), value.as_slice()))
        }
        Call::Put {
            key,
            value,
            mode,
            ..
        } => reach_of_put(*mode, kind, key.as_slice(), value.as_slice()),
        Call::Delete { key, .. } => reach_of_key(kind, key.as_slice()),
        Call::Count { .. } => reach_at_key(kind, at),
        Call::Cur { motion, .. } => reach_by(look_of_motion(kind, motion, at)),
        Call::CDel { .. } => reach_by(look_at_place(at)),
        Call::CPut {
            key,
            value,
            mode,
            ..
        } => reach_of_put(*mode, kind, key.as_slice(), value.as_slice()),
        _ => Reach::Each(NameEdge::First, NameEdge::First),
    }
}

// What a look for the first record of a range passed.
fn pass_lowest<'a, V: View>(
    alloc: Global,
    view: &'a V,
    from: NameEdge<'a>,
    upto: NameEdge<'a>,
) -> Result<Passed<'a>, AllocError>
    ensures { IfOk result (HasPassed (V.kind_of view.now) (look Lowest (range (edge_in from.entry) (edge_in upto.entry))) (V.pairs_of view.now)) }
{
    match lowest(alloc, view, from, upto)? {
        None => Ok(Passed {
            from,
            upto,
            is_ended: false,
        }),
        Some(found) => Ok(Passed {
            from,
            upto: NameEdge::Behind(record_name(view.kind(), &found)),
            is_ended: true,
        }),
    }
}

// What a look for the last one passed.
fn pass_highest<'a, V: View>(
    alloc: Global,
    view: &'a V,
    from: NameEdge<'a>,
    upto: NameEdge<'a>,
) -> Result<Passed<'a>, AllocError>
    ensures { IfOk result (HasPassed (V.kind_of view.now) (look Highest (range (edge_in from.entry) (edge_in upto.entry))) (V.pairs_of view.now)) }
{
    match highest(alloc, view, from, upto)? {
        None => Ok(Passed {
            from,
            upto,
            is_ended: false,
        }),
        Some(found) => Ok(Passed {
            from: NameEdge::At(record_name(view.kind(), &found)),
            upto,
            is_ended: false,
        }),
    }
}

/// What a call passed where it looked.
pub fn pass<'a, V: View>(
    alloc: Global,
    view: &'a V,
    reach: Reach<'a>,
) -> Result<Passed<'a>, AllocError>
    ensures { IfOk result (HasPassed (V.kind_of view.now) (reach_in reach.entry) (V.pairs_of view.now)) }
{
    match reach {
        Reach::Lowest(from, upto) => pass_lowest(alloc, view, from, upto),
        Reach::Highest(from, upto) => pass_highest(alloc, view, from, upto),
        Reach::Each(from, upto) => Ok(Passed {
            from,
            upto,
            is_ended: false,
        }),
    }
}
