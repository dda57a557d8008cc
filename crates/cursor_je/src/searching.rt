// Searches in a list of records.
ghost use Rattle.std.specs.Prelude.{◌≡◌, ◌∷◌};
ghost use Rattle.store_model.specs.Store.{name_of};
ghost use Rattle.store_model.specs.Reads.{range, is_within, seen};
ghost use Rattle.store_model.specs.Reads.Way.{Lowest, Highest};
ghost use Rattle.cursor_je.specs.Looks.{name_in, edge_in, pair_in, taken_in};
ghost use Rattle.cursor_je.specs.Rising.{below_first, rising};

use crate::record_ref::record_name;
use crate::{NameEdge, RecordRef};
use je_order::Octets;
use store_model::Kind;

fn record_of<'a>(pair: &'a (Octets, Octets)) -> RecordRef<'a>
    ensures { pair_in result ≡ pair.now }
{
    RecordRef {
        key: pair.0.as_slice(),
        value: pair.1.as_slice(),
    }
}

fn is_within(kind: Kind, from: NameEdge<'_>, upto: NameEdge<'_>, pair: &(Octets, Octets)) -> bool
    ensures { result ≡ is_within (range (edge_in from.entry) (edge_in upto.entry)) (name_of kind pair.now) }
{
    let found = record_of(pair);
    let name = record_name(kind, &found);
    !from.is_above(&name) && upto.is_above(&name)
}

// The first record between two edges.
pub fn first_in<'a>(
    kind: Kind,
    from: NameEdge<'_>,
    upto: NameEdge<'_>,
    pairs: &'a [(Octets, Octets)],
) -> Option<RecordRef<'a>>
    ensures { taken_in result ≡ seen kind Lowest (range (edge_in from.entry) (edge_in upto.entry)) pairs.now }
{
    match pairs {
        [] => None,
        [first, rest @ ..] => {
            if is_within(kind, from, upto, first) {
                return Some(record_of(first));
            }
            first_in(kind, from, upto, rest)
        }
    }
}

// The last one of a record and those behind it, of which `found` is the last one.
fn last_of_all<'a>(
    kind: Kind,
    from: NameEdge<'_>,
    upto: NameEdge<'_>,
    first: &'a (Octets, Octets),
    rest: &'a [(Octets, Octets)],
    found: Option<RecordRef<'a>>,
) -> Option<RecordRef<'a>>
    requires { taken_in found ≡ seen kind Highest (range (edge_in from) (edge_in upto)) rest.now }
    ensures { taken_in result ≡ seen kind Highest (range (edge_in from.entry) (edge_in upto.entry)) (first.now ∷ rest.now) }
{
    match found {
        Some(last) => Some(last),
        None => {
            if is_within(kind, from, upto, first) {
                return Some(record_of(first));
            }
            None
        }
    }
}

// The last one.
pub fn last_in<'a>(
    kind: Kind,
    from: NameEdge<'_>,
    upto: NameEdge<'_>,
    pairs: &'a [(Octets, Octets)],
) -> Option<RecordRef<'a>>
    ensures { taken_in result ≡ seen kind Highest (range (edge_in from.entry) (edge_in upto.entry)) pairs.now }
{
    match pairs {
        [] => None,
        [first, rest @ ..] => {
            let found = last_in(kind, from, upto, rest);
            last_of_all(kind, from, upto, first, rest, found)
        }
    }
}

fn is_below_first(kind: Kind, low: &(Octets, Octets), pairs: &[(Octets, Octets)]) -> bool
    ensures { result ≡ below_first kind low.now pairs.now }
{
    match pairs {
        [] => true,
        [high, ..] => {
            let low = record_of(low);
            let high = record_of(high);
            let low = record_name(kind, &low);
            low.cmp_name(&record_name(kind, &high)).is_lt()
        }
    }
}

// Whether the names of the records rise.
pub fn is_rising(kind: Kind, pairs: &[(Octets, Octets)]) -> bool
    ensures { result ≡ rising kind pairs.now }
{
    match pairs {
        [] => true,
        [first, rest @ ..] => is_below_first(kind, first, rest) && is_rising(kind, rest),
    }
}
