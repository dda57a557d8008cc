// What a call sees.
ghost use Rattle.std.specs.Prelude.{◌≡◌, ◌∷◌, [], not, filter, IfOk};
ghost use Rattle.std.specs.List.{list_any};
ghost use Rattle.std.specs.Ordering.{is_eq};
ghost use Rattle.je_order.specs.Order.{name_cmp};
ghost use Rattle.store_model.specs.Store.{Pair, name_of};
ghost use Rattle.store_model.specs.Reads.{is_within, at_name, taken_by, seen};
ghost use Rattle.store_model.specs.Reads.Way.{Lowest as LowestWay, Highest as HighestWay};
ghost use Rattle.record_eval.specs.Looks.{way_in, range_in, is_there};

use crate::edge::cmp_pair;
use crate::filtering::copies_where;
use crate::looking::{Looking, TakeWay};
use je_order::{List, Name, Octets, copy_of};
use std::alloc::{AllocError, Global};
use store_model::Kind;

/// Whether a record's name is within the range.
pub fn is_within(l: &Looking, kind: Kind, pair: &(Octets, Octets)) -> bool
    ensures { result ≡ is_within (range_in l.now) (name_of kind pair.now) }
{
    !l.from.is_below(kind, pair) && l.upto.is_below(kind, pair)
}

/// Whether a name is within the range.
pub fn is_name_within(l: &Looking, name: &Name) -> bool
    ensures { result ≡ is_within (range_in l.now) name.now }
{
    !l.from.is_above_name(name) && l.upto.is_above_name(name)
}

/// A list of one record.
fn one(alloc: Global, pair: (Octets, Octets)) -> Result<List<(Octets, Octets)>, AllocError>
    ensures { IfOk result (λ list. list ≡ pair ∷ []) }
{
    let mut list = List::new(alloc);
    list.push(pair)?;
    Ok(list)
}

fn lowest(alloc: Global, pairs: &[(Octets, Octets)]) -> Result<List<(Octets, Octets)>, AllocError>
    ensures { IfOk result (λ list. list ≡ taken_by LowestWay pairs.now) }
{
    match pairs.first() {
        None => Ok(List::new(alloc)),
        Some(pair) => one(alloc, copy_of(pair)?),
    }
}

fn highest(
    alloc: Global,
    pairs: List<(Octets, Octets)>,
) -> Result<List<(Octets, Octets)>, AllocError>
    ensures { IfOk result (λ list. list ≡ taken_by HighestWay pairs) }
{
    let mut items = pairs.into_vec();
    match items.pop() {
        None => Ok(List::new(alloc)),
        Some(pair) => one(alloc, pair),
    }
}

/// The first, the last or all.
fn taken_by(
    alloc: Global,
    way: TakeWay,
    pairs: List<(Octets, Octets)>,
) -> Result<List<(Octets, Octets)>, AllocError>
    ensures { IfOk result (λ list. list ≡ taken_by (way_in way) pairs) }
{
    match way {
        TakeWay::Lowest => lowest(alloc, pairs.as_slice()),
        TakeWay::Highest => highest(alloc, pairs),
        TakeWay::Each => Ok(pairs),
    }
}

/// The records that a look takes.
pub fn seen(
    alloc: Global,
    kind: Kind,
    l: &Looking,
    pairs: &[(Octets, Octets)],
) -> Result<List<(Octets, Octets)>, AllocError>
    ensures { IfOk result (λ taken. taken ≡ seen kind (way_in l.now.way) (range_in l.now) pairs.now) }
{
    let within = copies_where(alloc, pairs, |pair: &(Octets, Octets)| {
        is_within(l, kind, pair)
    })?;
    taken_by(alloc, l.way, within)
}

fn has_named(kind: Kind, name: &Name, pairs: &[(Octets, Octets)]) -> bool
    ensures { result ≡ list_any (λ (p : Pair). is_eq (name_cmp (name_of kind p) name.now)) pairs.now }
{
    pairs.iter().any(|pair: &(Octets, Octets)| cmp_pair(kind, pair, name).is_eq())
}

/// Whether there is a record of that name.
pub fn has_record(kind: Kind, name: &Name, pairs: &[(Octets, Octets)]) -> bool
    ensures { result ≡ is_there (at_name kind name.now pairs.now) }
{
    has_named(kind, name, pairs)
}
