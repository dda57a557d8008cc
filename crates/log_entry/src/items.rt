// Lists of items, read and written one after another.
ghost use Rattle.std.specs.Prelude.{◌≡◌, ◌+◌, ◌<◌, ◌^◌, length, vec_capacity, IfOk, MatchOption, Some, None};
ghost use Rattle.std.specs.Int.{w16};
ghost use Rattle.std.specs.List.{AllByRecursion, flat_map};
ghost use Rattle.log_entry.specs.Body.{alone};
ghost use Rattle.log_entry.specs.Items.{items_in, rising_in, counted_in, counted_bytes, rises as rise, rises_from as rise_from};
ghost use Rattle.log_entry.specs.Writing.{Puts};

use crate::item::Item;
use je_bytes::{Reader, put_u16};
use je_order::List;
use std::alloc::{AllocError, Global};

/// For how many items room is made before they are read: as many as a node has slots at most.
const MOST_AT_ONCE: u32 = 128;

// So many items, if they all come next.
fn read_items<T: Item>(
    alloc: Global,
    reader: &mut Reader<'_>,
    count: u32,
) -> Result<Option<Vec<T>>, AllocError>
    ensures { IfOk result (λ found. MatchOption found (items_in T.item_in count reader.old ≡ None) (λ items. items_in T.item_in count reader.old ≡ Some (items.items, reader.new))) }
{
    let mut items = Vec::with_capacity(alloc, count.min(MOST_AT_ONCE) as usize)?;
    for i in 0..count {
        let Some(item) = T::read(alloc, reader)? else {
            return Ok(None);
        };
        items.push(item)?;
    }
    Ok(Some(items))
}

// Whether this item comes before the first of the others, and each of them before the next one.
fn rises_from<T: Item>(first: &T, items: &[T]) -> bool
    ensures { result ≡ rise_from T.before first.now items.now }
{
    let mut last = first;
    for item in items {
        if !last.comes_before(item) {
            return false;
        }
        last = item;
    }
    true
}

// Whether each item comes before the next one.
fn rises<T: Item>(items: &[T]) -> bool
    ensures { result ≡ rise T.before items.now }
{
    match items {
        [] => true,
        [first, others @ ..] => rises_from(first, others),
    }
}

// So many items, but at most as many as are allowed, each of them before the next one, if they are all
// that is left. The time is that of what is read.
#[tactic(auto, unfolding(crate::specs::Items::rising_in))]
pub(crate) fn read_rising<T: Item>(
    alloc: Global,
    reader: &mut Reader<'_>,
    most: u32,
    count: u32,
) -> Result<Option<List<T>>, AllocError>
    ensures { IfOk result (λ found. found ≡ alone (rising_in T.item_in T.before most count reader.old)) }
{
    if count > most {
        return Ok(None);
    }
    let Some(items) = read_items(alloc, reader, count)? else {
        return Ok(None);
    };
    if !rises(items.as_slice()) || !reader.rest().is_empty() {
        return Ok(None);
    }
    Ok(Some(List::from_vec(items)))
}

// A list whose count has two bytes, if that is all that is left and it has at most so many items.
#[tactic(auto, unfolding(crate::specs::Items::counted_in))]
pub(crate) fn read_counted<T: Item>(
    alloc: Global,
    reader: &mut Reader<'_>,
    most: u32,
) -> Result<Option<List<T>>, AllocError>
    ensures { IfOk result (λ found. found ≡ alone (counted_in w16 T.item_in T.before most reader.old)) }
{
    let Ok(count) = reader.u16() else {
        return Ok(None);
    };
    read_rising(alloc, reader, most, u32::from(count))
}

// Puts the items at the end.
pub(crate) fn put_items<T: Item>(out: &mut Vec<u8>, items: &[T]) -> Result<(), AllocError>
    requires { AllByRecursion T.IsItem items.now }
    ensures { Puts (flat_map T.item_bytes items.now) result out.old.items out.new.items (vec_capacity out.old) (vec_capacity out.new) }
{
    for item in items {
        item.put(out)?;
    }
    Ok(())
}

// Puts the list at the end: its count in two bytes, and its items.
pub(crate) fn put_counted<T: Item>(out: &mut Vec<u8>, items: &[T]) -> Result<(), AllocError>
    requires each { AllByRecursion T.IsItem items.now }
    requires few { length items.now < 2 ^ 16 }
    ensures { Puts (counted_bytes w16 T.item_bytes items.now) result out.old.items out.new.items (vec_capacity out.old) (vec_capacity out.new) }
{
    put_u16(out, items.len() as u16)?;
    put_items(out, items)
}

// How many bytes the items have.
pub(crate) fn items_size<T: Item>(items: &[T]) -> u32
    requires each { AllByRecursion T.IsItem items.now }
    requires few { length (flat_map T.item_bytes items.now) < 2 ^ 32 }
    ensures { result ≡ length (flat_map T.item_bytes items.now) }
{
    let mut size = 0;
    for item in items {
        size += item.size();
    }
    size
}
