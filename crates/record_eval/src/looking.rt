// Where a call looks.
ghost use Rattle.std.specs.Prelude.{◌≡◌, [], IfOk};
ghost use Rattle.std.specs.Option.{option_copied};
ghost use Rattle.store_model.specs.Reads.{just as just_range, look};
ghost use Rattle.store_model.specs.Reads.Way.{Lowest as LowestWay};
ghost use Rattle.store_model.specs.Records.{no_look, first_of_key, all_of_key, exactly, exactly_or_above, look_of_put, look_from, look_from_none, look_of_motion, look_at_key, look_at_place, look_of};
ghost use Rattle.record_eval.specs.declared.edge.NameEdge.TheVariants.{At as AtName, Behind as BehindName};
ghost use Rattle.record_eval.specs.declared.looking.TakeWay.TheVariants.{Lowest as TakesLowest, Highest as TakesHighest};
ghost use Rattle.record_eval.specs.Looks.{look_in};

use crate::edge::{NameEdge, after_key, before_key, key_name, pair_name};
use je_order::{Name, Octets, copy_of};
use std::alloc::{AllocError, Global};
use store_model::{Call, Kind, Motion, PutMode};

/// Which records of a range are taken.
#[derive(Clone, Copy)]
pub enum TakeWay {
    Lowest,
    Highest,
    Each,
}

/// One range of names, and which of its records are taken.
#[derive(Drop)]
pub struct Looking {
    pub way: TakeWay,
    pub from: NameEdge,
    pub upto: NameEdge,
}

fn no_look() -> Looking
    ensures { look_in result ≡ no_look }
{
    Looking {
        way: TakeWay::Each,
        from: NameEdge::First,
        upto: NameEdge::First,
    }
}

fn lowest(from: NameEdge, upto: NameEdge) -> Looking
    ensures { result ≡ record { way = TakesLowest; from = from; upto = upto } }
{
    Looking {
        way: TakeWay::Lowest,
        from,
        upto,
    }
}

fn highest(from: NameEdge, upto: NameEdge) -> Looking
    ensures { result ≡ record { way = TakesHighest; from = from; upto = upto } }
{
    Looking {
        way: TakeWay::Highest,
        from,
        upto,
    }
}

fn just(name: Name) -> Result<Looking, AllocError>
    ensures { IfOk result (λ l. look_in l ≡ look LowestWay (just_range name)) }
{
    let from = NameEdge::At {
        name: copy_of(&name)?,
    };
    Ok(lowest(from, NameEdge::Behind { name }))
}

fn first_of_key(alloc: Global, kind: Kind, key: &Octets) -> Result<Looking, AllocError>
    ensures { IfOk result (λ l. look_in l ≡ first_of_key kind key.now) }
{
    match kind {
        Kind::Plain => just(key_name(alloc, key)?),
        Kind::Dup => Ok(lowest(before_key(alloc, key)?, after_key(alloc, key)?)),
    }
}

fn all_of_key(alloc: Global, kind: Kind, key: &Octets) -> Result<Looking, AllocError>
    ensures { IfOk result (λ l. look_in l ≡ all_of_key kind key.now) }
{
    match kind {
        Kind::Plain => just(key_name(alloc, key)?),
        Kind::Dup => {
            let from = before_key(alloc, key)?;
            let upto = after_key(alloc, key)?;
            Ok(Looking {
                way: TakeWay::Each,
                from,
                upto,
            })
        }
    }
}

fn exactly(alloc: Global, kind: Kind, key: &Octets, value: &Octets) -> Result<Looking, AllocError>
    ensures { IfOk result (λ l. look_in l ≡ exactly kind key.now value.now) }
{
    just(pair_name(alloc, kind, key, value)?)
}

fn exactly_or_above(
    alloc: Global,
    kind: Kind,
    key: &Octets,
    value: &Octets,
) -> Result<Looking, AllocError>
    ensures { IfOk result (λ l. look_in l ≡ exactly_or_above kind key.now value.now) }
{
    match kind {
        Kind::Plain => exactly(alloc, kind, key, value),
        Kind::Dup => {
            let name = pair_name(alloc, kind, key, value)?;
            let upto = after_key(alloc, key)?;
            Ok(lowest(NameEdge::At { name }, upto))
        }
    }
}

fn look_of_put(
    alloc: Global,
    mode: PutMode,
    kind: Kind,
    key: &Octets,
    value: &Octets,
) -> Result<Looking, AllocError>
    ensures { IfOk result (λ l. look_in l ≡ look_of_put mode kind key.now value.now) }
{
    match mode {
        PutMode::Overwrite => Ok(no_look()),
        PutMode::NoOverwrite => all_of_key(alloc, kind, key),
        PutMode::NoDupData => exactly(alloc, kind, key, value),
    }
}

fn edge_at(name: &Name) -> Result<NameEdge, AllocError>
    ensures { IfOk result (λ edge. edge ≡ AtName name.now) }
{
    Ok(NameEdge::At {
        name: copy_of(name)?,
    })
}

fn edge_behind(name: &Name) -> Result<NameEdge, AllocError>
    ensures { IfOk result (λ edge. edge ≡ BehindName name.now) }
{
    Ok(NameEdge::Behind {
        name: copy_of(name)?,
    })
}

/// Where a motion looks from a record.
fn look_from(alloc: Global, kind: Kind, motion: &Motion, n: &Name) -> Result<Looking, AllocError>
    ensures { IfOk result (λ l. look_in l ≡ look_from kind motion.now n.now) }
{
    match motion {
        Motion::First => Ok(lowest(NameEdge::First, NameEdge::End)),
        Motion::Last => Ok(highest(NameEdge::First, NameEdge::End)),
        Motion::Next => Ok(lowest(edge_behind(n)?, NameEdge::End)),
        Motion::Prev => Ok(highest(NameEdge::First, edge_at(n)?)),
        Motion::NextDup => Ok(lowest(edge_behind(n)?, after_key(alloc, &n.key)?)),
        Motion::PrevDup => Ok(highest(before_key(alloc, &n.key)?, edge_at(n)?)),
        Motion::NextNoDup => Ok(lowest(after_key(alloc, &n.key)?, NameEdge::End)),
        Motion::PrevNoDup => Ok(highest(NameEdge::First, before_key(alloc, &n.key)?)),
        Motion::Current => just(copy_of(n)?),
        Motion::Key { key } => first_of_key(alloc, kind, key),
        Motion::Range { key } => Ok(lowest(before_key(alloc, key)?, NameEdge::End)),
        Motion::Both { key, value } => exactly(alloc, kind, key, value),
        Motion::BothRange { key, value } => exactly_or_above(alloc, kind, key, value),
    }
}

/// Where it looks from none.
fn look_from_none(alloc: Global, kind: Kind, motion: &Motion) -> Result<Looking, AllocError>
    ensures { IfOk result (λ l. look_in l ≡ look_from_none kind motion.now) }
{
    match motion {
        Motion::First => Ok(lowest(NameEdge::First, NameEdge::End)),
        Motion::Last => Ok(highest(NameEdge::First, NameEdge::End)),
        Motion::Next => Ok(lowest(NameEdge::First, NameEdge::End)),
        Motion::Prev => Ok(highest(NameEdge::First, NameEdge::End)),
        Motion::NextDup => Ok(no_look()),
        Motion::PrevDup => Ok(no_look()),
        Motion::NextNoDup => Ok(lowest(NameEdge::First, NameEdge::End)),
        Motion::PrevNoDup => Ok(highest(NameEdge::First, NameEdge::End)),
        Motion::Current => Ok(no_look()),
        Motion::Key { key } => first_of_key(alloc, kind, key),
        Motion::Range { key } => Ok(lowest(before_key(alloc, key)?, NameEdge::End)),
        Motion::Both { key, value } => exactly(alloc, kind, key, value),
        Motion::BothRange { key, value } => exactly_or_above(alloc, kind, key, value),
    }
}

fn look_of_motion(
    alloc: Global,
    kind: Kind,
    motion: &Motion,
    at: Option<&Name>,
) -> Result<Looking, AllocError>
    ensures { IfOk result (λ l. look_in l ≡ look_of_motion kind motion.now (option_copied at.entry)) }
{
    match at {
        None => look_from_none(alloc, kind, motion),
        Some(n) => look_from(alloc, kind, motion, n),
    }
}

fn look_at_key(alloc: Global, kind: Kind, at: Option<&Name>) -> Result<Looking, AllocError>
    ensures { IfOk result (λ l. look_in l ≡ look_at_key kind (option_copied at.entry)) }
{
    match at {
        None => Ok(no_look()),
        Some(n) => all_of_key(alloc, kind, &n.key),
    }
}

fn look_at_place(at: Option<&Name>) -> Result<Looking, AllocError>
    ensures { IfOk result (λ l. look_in l ≡ look_at_place (option_copied at.entry)) }
{
    match at {
        None => Ok(no_look()),
        Some(n) => just(copy_of(n)?),
    }
}

/// Where a call looks in a database of that kind, from where its cursor stands.
pub fn look_of(
    alloc: Global,
    kind: Kind,
    call: &Call,
    at: Option<&Name>,
) -> Result<Looking, AllocError>
    ensures { IfOk result (λ l. look_in l ≡ look_of kind call.now (option_copied at.entry)) }
{
    match call {
        Call::Get { key, .. } => first_of_key(alloc, kind, key),
        Call::GetBoth { key, value, .. } => exactly(alloc, kind, key, value),
        Call::Put {
            key,
            value,
            mode,
            ..
        } => look_of_put(alloc, *mode, kind, key, value),
        Call::Delete { key, .. } => all_of_key(alloc, kind, key),
        Call::Count { .. } => look_at_key(alloc, kind, at),
        Call::Cur { motion, .. } => look_of_motion(alloc, kind, motion, at),
        Call::CDel { .. } => look_at_place(at),
        Call::CPut {
            key,
            value,
            mode,
            ..
        } => look_of_put(alloc, *mode, kind, key, value),
        _ => Ok(no_look()),
    }
}
