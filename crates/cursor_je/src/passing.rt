// What a call passed, where its range or what it came to says that.
ghost use Rattle.std.specs.Prelude.{◌≡◌, List, Option, IfOk, IfSome};
ghost use Rattle.std.specs.Option.{option_copied};
ghost use Rattle.je_order.specs.declared.name.Name.{Name as OneName};
ghost use Rattle.store_model.specs.declared.kind.Kind.{Kind as KindOf};
ghost use Rattle.store_model.specs.declared.motion.Motion.{Motion as Moved};
ghost use Rattle.store_model.specs.Store.{Pair};
ghost use Rattle.store_model.specs.Reads.{just, passed_to, range};
ghost use Rattle.store_model.specs.Records.{conclude, look_of, tested, went};
ghost use Rattle.cursor_je.specs.Looks.{edge_in, planned_in, seen_by};
ghost use Rattle.cursor_je.specs.Reaches.{HasPassed, LocksPassed, range_in, reach_in};

use crate::name_ref::name_ref;
use crate::planned::Planned;
use crate::reach::{Passed, Reach, pass, reach_of};
use crate::read_part::ReadPart;
use crate::{NameEdge, View};
use je_order::Name;
use std::alloc::{AllocError, Global};
use store_model::Call;

// What lies between two edges, if that is one name.
fn pass_between<'a>(from: NameEdge<'a>, upto: NameEdge<'a>) -> Option<Passed<'a>>
    ensures { IfSome result (λ p. (n : OneName) × (range_in p ≡ just n) × (range (edge_in from.entry) (edge_in upto.entry) ≡ just n)) }
{
    match from {
        NameEdge::At(name) => {
            if upto.is_behind(&name) {
                Some(Passed {
                    from,
                    upto,
                    is_ended: false,
                })
            } else {
                None
            }
        }
        _ => None,
    }
}

// What a look for the record of one name passed: that name, whether it has a record or not; None for any other look. Whether
// a record ends it is left open.
fn pass_name<'a>(reach: Reach<'a>) -> Option<Passed<'a>>
    ensures { IfSome result (λ p. (kind : KindOf) (pairs : List Pair) → range_in p ≡ passed_to kind (reach_in reach.entry).way (reach_in reach.entry).range (seen_by kind (reach_in reach.entry) pairs)) }
{
    match reach {
        Reach::Lowest(from, upto) => pass_between(from, upto),
        _ => None,
    }
}

// What a motion passed that went to a record, behind which the cursor's place is; None where it did not.
fn pass_moved<'a>(reach: Reach<'a>, planned: &'a Planned) -> Option<Passed<'a>>
    ensures { IfSome result (λ p. (kind : KindOf) (motion : Moved) (at : Option OneName) (pairs : List Pair) → planned_in planned.now ≡ went kind at (tested kind motion (seen_by kind (reach_in reach.entry) pairs)) → HasPassed kind (reach_in reach.entry) pairs p) }
{
    if !planned.answered {
        return None;
    }
    let Some(place) = &planned.place else {
        return None;
    };
    match reach {
        Reach::Lowest(from, _) => Some(Passed {
            from,
            upto: NameEdge::Behind(name_ref(place)),
            is_ended: true,
        }),
        Reach::Highest(_, upto) => Some(Passed {
            from: NameEdge::At(name_ref(place)),
            upto,
            is_ended: false,
        }),
        Reach::Each(..) => None,
    }
}

// What a call passed that came to what was planned, as far as it is locked. It looks at the records again where neither the range nor the
// plan says it.
pub(crate) fn pass_planned<'a, V: View>(
    alloc: Global,
    view: &'a V,
    part: ReadPart,
    call: &'a Call,
    at: Option<&'a Name>,
    planned: &'a Planned,
) -> Result<Passed<'a>, AllocError>
    requires { planned_in planned.now ≡ conclude (V.kind_of view.now) call.now (option_copied at) (seen_by (V.kind_of view.now) (look_of (V.kind_of view.now) call.now (option_copied at)) (V.pairs_of view.now)) }
    ensures { IfOk result (LocksPassed (V.kind_of view.now) (look_of (V.kind_of view.now) call.now (option_copied at.entry)) (V.pairs_of view.now) part planned.now.answered) }
{
    let reach = reach_of(view.kind(), call, at);
    if part.behind.is_none() {
        if let Some(passed) = pass_name(reach) {
            return Ok(passed);
        }
    }
    if let Call::Cur { .. } = call {
        if let Some(passed) = pass_moved(reach, planned) {
            return Ok(passed);
        }
    }
    pass(alloc, view, reach)
}
