// Where a call looks.
ghost use Rattle.std.specs.Prelude.{◌≡◌};
ghost use Rattle.std.specs.Option.{option_copied};
ghost use Rattle.store_model.specs.Records.{first_of_key, exactly, exactly_or_above, look_from, look_from_none, look_of_motion, look_at_place};
ghost use Rattle.cursor_je.specs.Looks.{look_in};

use crate::name_ref::{key_name, name_ref, pair_name};
use crate::{NameEdge, NameRef};
use je_order::Name;
use store_model::{Kind, Motion};

/// Where a call looks for one record.
#[derive(Clone, Copy)]
pub enum Looking<'a> {
    /// It does not look.
    Nowhere,
    /// At the record of a name.
    One(NameRef<'a>),
    /// For the first record from an edge on and below another one.
    Lowest(NameEdge<'a>, NameEdge<'a>),
    /// For the last one there.
    Highest(NameEdge<'a>, NameEdge<'a>),
}

/// For the first record of a key.
pub fn first_of_key<'a>(kind: Kind, key: &'a [u8]) -> Looking<'a>
    ensures { look_in result ≡ first_of_key kind key.now }
{
    match kind {
        Kind::Plain => Looking::One(key_name(key)),
        Kind::Dup => Looking::Lowest(NameEdge::At(key_name(key)), NameEdge::BehindKey(key)),
    }
}

/// At the record of a key and data.
pub fn exactly<'a>(kind: Kind, key: &'a [u8], value: &'a [u8]) -> Looking<'a>
    ensures { look_in result ≡ exactly kind key.now value.now }
{
    Looking::One(pair_name(kind, key, value))
}

// For the first record of a key from this data on.
fn exactly_or_above<'a>(kind: Kind, key: &'a [u8], value: &'a [u8]) -> Looking<'a>
    ensures { look_in result ≡ exactly_or_above kind key.now value.now }
{
    match kind {
        Kind::Plain => exactly(kind, key, value),
        Kind::Dup => {
            let from = NameEdge::At(NameRef { key, dup: value });
            Looking::Lowest(from, NameEdge::BehindKey(key))
        }
    }
}

// Where a motion looks from a record.
fn look_from<'a>(kind: Kind, motion: &'a Motion, at: &'a Name) -> Looking<'a>
    ensures { look_in result ≡ look_from kind motion.now at.now }
{
    let n = name_ref(at);
    let key = at.key.as_slice();
    match motion {
        Motion::First => Looking::Lowest(NameEdge::First, NameEdge::End),
        Motion::Last => Looking::Highest(NameEdge::First, NameEdge::End),
        Motion::Next => Looking::Lowest(NameEdge::Behind(n), NameEdge::End),
        Motion::Prev => Looking::Highest(NameEdge::First, NameEdge::At(n)),
        Motion::NextDup => Looking::Lowest(NameEdge::Behind(n), NameEdge::BehindKey(key)),
        Motion::PrevDup => Looking::Highest(NameEdge::At(key_name(key)), NameEdge::At(n)),
        Motion::NextNoDup => Looking::Lowest(NameEdge::BehindKey(key), NameEdge::End),
        Motion::PrevNoDup => Looking::Highest(NameEdge::First, NameEdge::At(key_name(key))),
        Motion::Current => Looking::One(n),
        Motion::Key { key } => first_of_key(kind, key.as_slice()),
        Motion::Range { key } => {
            Looking::Lowest(NameEdge::At(key_name(key.as_slice())), NameEdge::End)
        }
        Motion::Both { key, value } => exactly(kind, key.as_slice(), value.as_slice()),
        Motion::BothRange { key, value } => {
            exactly_or_above(kind, key.as_slice(), value.as_slice())
        }
    }
}

// Where it looks from none.
fn look_from_none<'a>(kind: Kind, motion: &'a Motion) -> Looking<'a>
    ensures { look_in result ≡ look_from_none kind motion.now }
{
    match motion {
        Motion::First => Looking::Lowest(NameEdge::First, NameEdge::End),
        Motion::Last => Looking::Highest(NameEdge::First, NameEdge::End),
        Motion::Next => Looking::Lowest(NameEdge::First, NameEdge::End),
        Motion::Prev => Looking::Highest(NameEdge::First, NameEdge::End),
        Motion::NextDup => Looking::Nowhere,
        Motion::PrevDup => Looking::Nowhere,
        Motion::NextNoDup => Looking::Lowest(NameEdge::First, NameEdge::End),
        Motion::PrevNoDup => Looking::Highest(NameEdge::First, NameEdge::End),
        Motion::Current => Looking::Nowhere,
        Motion::Key { key } => first_of_key(kind, key.as_slice()),
        Motion::Range { key } => {
            Looking::Lowest(NameEdge::At(key_name(key.as_slice())), NameEdge::End)
        }
        Motion::Both { key, value } => exactly(kind, key.as_slice(), value.as_slice()),
        Motion::BothRange { key, value } => {
            exactly_or_above(kind, key.as_slice(), value.as_slice())
        }
    }
}

/// Where a motion looks, from where the cursor stands.
pub fn look_of_motion<'a>(kind: Kind, motion: &'a Motion, at: Option<&'a Name>) -> Looking<'a>
    ensures { look_in result ≡ look_of_motion kind motion.now (option_copied at.entry) }
{
    match at {
        None => look_from_none(kind, motion),
        Some(n) => look_from(kind, motion, n),
    }
}

/// At the record where the cursor stands.
pub fn look_at_place<'a>(at: Option<&'a Name>) -> Looking<'a>
    ensures { look_in result ≡ look_at_place (option_copied at.entry) }
{
    match at {
        None => Looking::Nowhere,
        Some(n) => Looking::One(name_ref(n)),
    }
}
