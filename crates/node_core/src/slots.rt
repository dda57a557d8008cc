// Slots in the order of their names.
ghost use Rattle.std.specs.Prelude.{◌≡◌, ◌==◌, ◌≤◌, [], None, true, length, take, drop, map, is_some, IsSome, IsOk, IfOk, OnOk, OnErr, MatchOption};
ghost use Rattle.std.specs.Ordering.{is_lt};
ghost use Rattle.je_order.specs.Order.{name_cmp};
ghost use Rattle.node_core.specs.Sorted.{Rises, AreSlots, IsPlace, IsAt, HasRoom, at as slot_at, put};
ghost use Rattle.node_core.specs.Changes.{unmarked};

use crate::Marked;
use je_order::{Name, cmp_name};
use std::alloc::{AllocError, Global};
use std::cmp::Ordering;
use std::marker::Model;

/// At most 128 slots in the order of their names, each name once.
#[derive(Debug, Drop)]
pub struct Slots {
    marked: Vec<Marked>,
}

impl Model for Slots {
    ghost use Rattle.std.specs.Prelude.{List};
    ghost use Rattle.node_core.specs.declared.slot.Marked.{Marked as MarkedSlot};
    ghost use Rattle.node_core.specs.Sorted.{AreSlots};

    ghost Value = { List MarkedSlot };

    ghost view = { λ a. a.marked.items };

    ghost invariant = { λ a. AreSlots a.marked.items };
}

// Whether the slot's name is below.
fn is_below(marked: &Marked, at: &Name) -> bool
    ensures { result ≡ is_lt (name_cmp marked.now.slot.name at.now) }
{
    match cmp_name(&marked.slot.name, at) {
        Ordering::Less => true,
        _ => false,
    }
}

// Whether there are slots, and all of them have names below: the last one tells.
fn are_below(marked: &[Marked], at: &Name) -> bool
    requires { Rises marked.now }
    ensures { result ≡ true → IsPlace at.now marked.now (length marked.now) }
{
    if marked.is_empty() {
        return false;
    }
    is_below(&marked[marked.len() - 1], at)
}

// How many slots have names below. Slots are often put in order, so the last one is asked first.
fn rank_in(marked: &[Marked], at: &Name) -> usize
    requires { Rises marked.now }
    ensures { IsPlace at.now marked.now result }
{
    if are_below(marked, at) {
        return marked.len();
    }
    marked.partition_point(|m| is_below(m, at))
}

// Whether the slot at the place of the name has it.
fn is_at(marked: &[Marked], at: &Name, index: usize) -> bool
    requires rises { Rises marked.now }
    requires place { IsPlace at.now marked.now index }
    ensures there { result ≡ is_some (slot_at at.now marked.now) }
    ensures found { result ≡ true → IsAt at.now marked.now index }
{
    if index >= marked.len() {
        return false;
    }
    match cmp_name(at, &marked[index].slot.name) {
        Ordering::Equal => true,
        _ => false,
    }
}

fn unmark_all(marked: &mut [Marked])
    ensures { marked.new ≡ map unmarked marked.old }
{
    for m in marked {
        m.changed = false;
    }
}

impl Slots {
    /// No slots. It takes no memory.
    pub fn new(alloc: Global) -> Slots
        ensures { result ≡ [] }
    {
        Slots {
            marked: Vec::new(alloc),
        }
    }

    /// The slots, in the order of their names.
    pub fn as_slice(&self) -> &[Marked]
        ensures value { result.now ≡ self.now }
        ensures slots { AreSlots self.now }
    {
        self.marked.as_slice()
    }

    pub fn len(&self) -> usize
        ensures value { result ≡ length self.now }
        ensures slots { AreSlots self.now }
    {
        self.marked.len()
    }

    pub fn is_empty(&self) -> bool
        ensures { result ≡ (length self.now == 0) }
    {
        self.marked.is_empty()
    }

    /// How many slots have names below, which is the place of the first slot from the name on.
    pub fn rank(&self, at: &Name) -> usize
        ensures { IsPlace at.now self.now result }
    {
        rank_in(&self.marked, at)
    }

    /// The place of the slot with the name, and None exactly where no slot has it. The time is that of a
    /// binary search.
    pub fn find(&self, at: &Name) -> Option<usize>
        ensures { MatchOption result (slot_at at.now self.now ≡ None) (IsAt at.now self.now) }
    {
        let index = rank_in(&self.marked, at);
        if is_at(&self.marked, at, index) {
            Some(index)
        } else {
            None
        }
    }

    // Puts the slot over the one of its name, or at its place between the others.
    pub(crate) fn put(&mut self, marked: Marked) -> Result<(), AllocError>
        requires { HasRoom marked.slot.name self.old }
        ensures ok { OnOk result (self.new ≡ put marked self.old) }
        ensures err { OnErr result (self.new ≡ self.old) }
        ensures there { IsSome (slot_at marked.slot.name self.old) → IsOk result }
        ensures slots { AreSlots self.old }
    {
        let index = rank_in(&self.marked, &marked.slot.name);
        if is_at(&self.marked, &marked.slot.name, index) {
            self.marked[index] = marked;
            return Ok(());
        }
        self.marked.insert(index, marked)?;
        Ok(())
    }

    // No slot counts as changed any more.
    pub(crate) fn unmark(&mut self)
        ensures value { self.new ≡ map unmarked self.old }
        ensures slots { AreSlots self.old }
    {
        unmark_all(self.marked.as_mut_slice());
    }
}
