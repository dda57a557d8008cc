// The locks that a call needs.
ghost use Rattle.std.specs.Prelude.{◌≡◌, ◌++◌, ◌&&◌, map, filter, find, option_map, Some, true, IfOk, OnOk};
ghost use Rattle.std.specs.Option.{option_copied};
ghost use Rattle.je_order.specs.declared.bound.Bound.TheVariants.{At as On};
ghost use Rattle.je_order.specs.declared.name.Name.{Name as OneName};
ghost use Rattle.je_order.specs.Edges.Edge.{Behind};
ghost use Rattle.store_model.specs.Reads.{at_name, range, is_within};
ghost use Rattle.store_model.specs.Records.{conclude, evaluation, look_of};
ghost use Rattle.store_model.specs.Needs.{need, place_of, first_from, needs_behind, part_needs, write_type, changed_name, insert_needs, write_needs};
ghost use Rattle.cursor_je.specs.Looks.{name_in, edge_in, planned_in, seen_by};
ghost use Rattle.cursor_je.specs.Reaches.{part_in, range_in, kept_below, read_needs as needs_of_read, read_unless};

use crate::name_ref::name_ref;
use crate::passing::pass_planned;
use crate::planned::Planned;
use crate::planning::early_of;
use crate::reach::Passed;
use crate::read_part::{ReadPart, part_of};
use crate::{NameEdge, NameRef, Names, View};
use je_order::{Bound, Name, copy_of};
use lock_mode::LockType;
use std::alloc::{AllocError, Global};
use store_model::{Call, Isolation, Need, RecordChange};

// The name, if it is below the edge.
fn name_below<'a>(upto: NameEdge<'_>, found: Option<NameRef<'a>>) -> Option<NameRef<'a>>
    ensures { option_map name_in result ≡ kept_below (edge_in upto.entry) (option_map name_in found.entry) }
{
    match found {
        None => None,
        Some(name) => {
            if upto.is_above(&name) {
                Some(name)
            } else {
                None
            }
        }
    }
}

// Whether both edges are right behind one name, so that no name lies between them.
fn is_same_edge(from: NameEdge<'_>, upto: NameEdge<'_>) -> bool
    ensures { result ≡ true → edge_in from.entry ≡ edge_in upto.entry }
{
    match from {
        NameEdge::Behind(name) => upto.is_behind(&name),
        _ => false,
    }
}

// The first occupied name from an edge on and below another one.
fn first_within<'a, N: Names>(
    alloc: Global,
    names: &'a N,
    from: NameEdge<'_>,
    upto: NameEdge<'_>,
) -> Result<Option<NameRef<'a>>, AllocError>
    ensures { IfOk result (λ found. option_map name_in found ≡ find (is_within (range (edge_in from.entry) (edge_in upto.entry))) (N.names_of names.now)) }
{
    if is_same_edge(from, upto) {
        return Ok(None);
    }
    let found = names.first_name(alloc, from)?;
    Ok(name_below(upto, found))
}

// The place of a name, if any, else the database's end.
fn place_of(alloc: Global, found: Option<NameRef<'_>>) -> Result<Bound, AllocError>
    ensures { IfOk result (λ at. at ≡ place_of (option_map name_in found.entry)) }
{
    match found {
        None => Ok(Bound::End),
        Some(name) => Ok(Bound::At(name.to_name(alloc)?)),
    }
}

// The place of the first occupied name that is not below an edge.
fn first_from<N: Names>(alloc: Global, names: &N, edge: NameEdge<'_>) -> Result<Bound, AllocError>
    ensures { IfOk result (λ at. at ≡ first_from (edge_in edge.entry) (N.names_of names.now)) }
{
    let found = names.first_name(alloc, edge)?;
    let at = place_of(alloc, found)?;
    Ok(at)
}

// Puts the needs of the occupied names of a range at the end.
fn push_inside<N: Names>(
    alloc: Global,
    names: &N,
    needs: &mut Vec<Need>,
    db: u32,
    asked: LockType,
    from: NameEdge<'_>,
    upto: NameEdge<'_>,
) -> Result<(), AllocError>
    ensures { OnOk result (needs.new.items ≡ needs.old.items ++ map (λ (n : OneName). need db (On n) asked) (filter (is_within (range (edge_in from.entry) (edge_in upto.entry))) (N.names_of names.now))) }
{
    let mut from = from;
    'names: while let Some(name) = first_within(alloc, names, from, upto)? {
        let at = Bound::At(name.to_name(alloc)?);
        needs.push(Need { db, at, asked })?;
        from = NameEdge::Behind(name);
    }
    Ok(())
}

// Puts the need of the place behind a range at the end, if it is locked.
fn push_behind<N: Names>(
    alloc: Global,
    names: &N,
    needs: &mut Vec<Need>,
    db: u32,
    behind: Option<LockType>,
    is_ended: bool,
    upto: NameEdge<'_>,
) -> Result<(), AllocError>
    ensures { OnOk result (needs.new.items ≡ needs.old.items ++ needs_behind db behind is_ended (first_from (edge_in upto.entry) (N.names_of names.now))) }
{
    match behind {
        Some(asked) => {
            if !is_ended {
                let at = first_from(alloc, names, upto)?;
                needs.push(Need { db, at, asked })?;
            }
            Ok(())
        }
        None => Ok(()),
    }
}

// Puts the needs of what was passed at the end.
fn push_passed<N: Names>(
    alloc: Global,
    names: &N,
    needs: &mut Vec<Need>,
    db: u32,
    part: ReadPart,
    passed: Passed<'_>,
    answered: bool,
) -> Result<(), AllocError>
    ensures { OnOk result (needs.new.items ≡ needs.old.items ++ part_needs db (part_in (Some part)) (range_in passed.entry) (passed.entry.is_ended && answered) (N.names_of names.now)) }
{
    push_inside(
        alloc,
        names,
        needs,
        db,
        part.inside,
        passed.from,
        passed.upto,
    )?;
    let is_ended = passed.is_ended && answered;
    push_behind(alloc, names, needs, db, part.behind, is_ended, passed.upto)
}

// Puts the needs of what a call reads at the end.
fn push_read<V: View + Names>(
    alloc: Global,
    view: &V,
    needs: &mut Vec<Need>,
    level: Isolation,
    db: u32,
    call: &Call,
    at: Option<&Name>,
    planned: &Planned,
) -> Result<(), AllocError>
    requires { planned_in planned.now ≡ conclude (V.kind_of view.now) call.now (option_copied at) (seen_by (V.kind_of view.now) (look_of (V.kind_of view.now) call.now (option_copied at)) (V.pairs_of view.now)) }
    ensures { OnOk result (needs.new.items ≡ needs.old.items ++ needs_of_read level db (V.kind_of view.now) call.now (option_copied at.entry) planned.now.answered (V.pairs_of view.now) (V.names_of view.now)) }
{
    let Some(part) = part_of(level, call) else {
        return Ok(());
    };
    let passed = pass_planned(alloc, view, part, call, at, planned)?;
    push_passed(alloc, view, needs, db, part, passed, planned.answered)
}

fn write_type(level: Isolation) -> LockType
    ensures { result ≡ write_type level }
{
    match level {
        Isolation::Serializable => LockType::RangeWrite,
        _ => LockType::Write,
    }
}

fn changed_name(change: &RecordChange) -> &Name
    ensures { result.now ≡ changed_name change.now }
{
    match change {
        RecordChange::Set { at, .. } => at,
        RecordChange::Unset { at } => at,
    }
}

// Puts the need of a name that has no record yet at the end: that of the place behind it.
fn push_insert<V: View + Names>(
    alloc: Global,
    view: &V,
    needs: &mut Vec<Need>,
    db: u32,
    n: &Name,
) -> Result<(), AllocError>
    ensures { OnOk result (needs.new.items ≡ needs.old.items ++ insert_needs db (at_name (V.kind_of view.now) n.now (V.pairs_of view.now)) (first_from (Behind n.now) (V.names_of view.now))) }
{
    match view.record(alloc, name_ref(n))? {
        Some(_) => Ok(()),
        None => {
            let at = first_from(alloc, view, NameEdge::Behind(name_ref(n)))?;
            needs.push(Need {
                db,
                at,
                asked: LockType::RangeInsert,
            })?;
            Ok(())
        }
    }
}

/// Puts the needs of a change in the database of that number at the end: its name, and where that has no record the
/// place behind it. The only error is out of memory.
pub fn push_write<V: View + Names>(
    alloc: Global,
    view: &V,
    needs: &mut Vec<Need>,
    level: Isolation,
    db: u32,
    change: &RecordChange,
) -> Result<(), AllocError>
    ensures { OnOk result (needs.new.items ≡ needs.old.items ++ write_needs level db (V.kind_of view.now) (V.pairs_of view.now) (V.names_of view.now) change.now) }
{
    let n = changed_name(change);
    let at = Bound::At(copy_of(n)?);
    let asked = write_type(level);
    needs.push(Need { db, at, asked })?;
    push_insert(alloc, view, needs, db, n)
}

/// The locks of what a call reads at a level, in the database of that number, with its cursor at that place, where it
/// comes to what was planned: none where the cursor's place alone answers it. It looks at the occupied names that the
/// read passes. The only error is out of memory.
pub fn read_needs<V: View + Names>(
    alloc: Global,
    view: &V,
    level: Isolation,
    db: u32,
    call: &Call,
    at: Option<&Name>,
    planned: &Planned,
) -> Result<Vec<Need>, AllocError>
    requires { planned_in planned.now ≡ evaluation (V.kind_of view.now) call.now (option_copied at) (V.pairs_of view.now) }
    ensures { IfOk result (λ needs. needs.items ≡ read_unless level db (V.kind_of view.now) call.now (option_copied at.entry) (V.pairs_of view.now) (V.names_of view.now)) }
{
    let mut needs = Vec::new(alloc);
    if early_of(alloc, view, call, at)?.is_some() {
        return Ok(needs);
    }
    push_read(alloc, view, &mut needs, level, db, call, at, planned)?;
    Ok(needs)
}
