// Slots that images may have.
ghost use Rattle.std.specs.Prelude.{◌≡◌, ◌≤◌, ◌<◌, ◌^◌, true, length, IfSome};
ghost use Rattle.std.specs.Ordering.{is_lt};
ghost use Rattle.je_order.specs.Order.{name_cmp};
ghost use Rattle.log_entry.specs.Fields.{IsName};
ghost use Rattle.std.specs.List.{AllByRecursion};
ghost use Rattle.log_entry.specs.Body.{IsEntry};
ghost use Rattle.log_entry.specs.Items.{AreRising, IsChildSlot, child_before, rises as rise, rises_from as rise_from};
ghost use Rattle.record_tree.specs.Logged.{IsImage};

use je_lsn::Lsn;
use je_order::{Name, cmp_name};
use log_entry::{ChildSlot, Entry, RecordSlot};
use std::cmp::Ordering;

// How many slots an image has at most.
const MOST_SLOTS: usize = 128;

// How many bytes a name's key has at most, and its dup.
const MOST_BYTES: usize = 4096;

// A slot of an image: whether an entry may have it, and which of two comes first.
trait ImageSlot {
    ghost use Rattle.std.specs.Prelude.{Bool};

    ghost IsSlot: { Self → Type 0 };

    ghost before: { Self → Self → Bool };

    fn fits(&self) -> bool
        ensures { result ≡ true → IsSlot self.now };

    fn comes_before(&self, other: &Self) -> bool
        ensures { result ≡ before self.now other.now };
}

// Whether an entry may have the name.
fn is_name(name: &Name) -> bool
    ensures { result ≡ true → IsName name.now }
{
    name.key.len() <= MOST_BYTES && name.dup.len() <= MOST_BYTES
}

// Whether the first name comes before the other.
fn is_before(first: &Name, other: &Name) -> bool
    ensures { result ≡ is_lt (name_cmp first.now other.now) }
{
    match cmp_name(first, other) {
        Ordering::Less => true,
        _ => false,
    }
}

impl ImageSlot for ChildSlot {
    ghost use Rattle.log_entry.specs.Items.{IsChildSlot, child_before};

    ghost IsSlot = { IsChildSlot };

    ghost before = { child_before };

    fn fits(&self) -> bool {
        let _child = self.child.as_u64();
        is_name(&self.name)
    }

    fn comes_before(&self, other: &ChildSlot) -> bool {
        is_before(&self.name, &other.name)
    }
}

impl ImageSlot for RecordSlot {
    ghost use Rattle.log_entry.specs.Items.{IsRecordSlot, record_before};

    ghost IsSlot = { IsRecordSlot };

    ghost before = { record_before };

    fn fits(&self) -> bool {
        is_name(&self.name) && is_lsn(&self.lsn)
    }

    fn comes_before(&self, other: &RecordSlot) -> bool {
        is_before(&self.name, &other.name)
    }
}

// Whether an entry may have the LSN, which is always so.
fn is_lsn(lsn: &Option<Lsn>) -> bool
    ensures { result ≡ true → IfSome lsn.now (λ at. at < 2 ^ 64) }
{
    match lsn {
        Some(at) => {
            let _number = at.as_u64();
            true
        }
        None => true,
    }
}

// Whether an entry may have each of the slots.
fn each_fits<T: ImageSlot>(slots: &[T]) -> bool
    ensures { result ≡ true → AllByRecursion T.IsSlot slots.now }
{
    for slot in slots {
        if !slot.fits() {
            return false;
        }
    }
    true
}

// Whether this slot comes before the first of the others, and each of them before the next one.
fn rises_from<T: ImageSlot>(first: &T, slots: &[T]) -> bool
    ensures { result ≡ rise_from T.before first.now slots.now }
{
    let mut last = first;
    for slot in slots {
        if !last.comes_before(slot) {
            return false;
        }
        last = slot;
    }
    true
}

// Whether each slot comes before the next one.
fn rises<T: ImageSlot>(slots: &[T]) -> bool
    ensures { result ≡ rise T.before slots.now }
{
    match slots {
        [] => true,
        [first, others @ ..] => rises_from(first, others),
    }
}

// Whether an image may have the slots.
fn are_slots<T: ImageSlot>(slots: &[T]) -> bool
    ensures { result ≡ true → AreRising T.IsSlot T.before 128 slots.now }
{
    slots.len() <= MOST_SLOTS && each_fits(slots) && rises(slots)
}

// Whether an IN of the level may have the slots.
fn are_children(level: u8, slots: &[ChildSlot]) -> bool
    ensures { result ≡ true → (2 ≤ level) × (level ≤ 64) × (0 < length slots.now) × AreRising IsChildSlot child_before 128 slots.now }
{
    level >= 2 && level <= 64 && !slots.is_empty() && are_slots(slots)
}

/// Whether the entry is an image of a node that a log may have.
pub fn is_image(entry: &Entry) -> bool
    ensures { result ≡ true → IsEntry entry.now × IsImage entry.now }
{
    match entry {
        Entry::In {
            db,
            node,
            level,
            slots,
        } => {
            let _db = *db;
            let _node = *node;
            are_children(*level, slots.as_slice())
        }
        Entry::Bin { db, node, slots } => {
            let _db = *db;
            let _node = *node;
            are_slots(slots.as_slice())
        }
        _ => false,
    }
}
