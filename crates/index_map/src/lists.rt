// The lists of the indexes of each primary.
ghost use Rattle.std.specs.Prelude.{◌≡◌, ◌==◌, ℕ, OnOk, OnErr, if◌then◌else◌};
ghost use Rattle.index_map.specs.Made.{with_index, without};
ghost use Rattle.index_map.specs.Map.{list_at};

use crate::{FoundIndex, sorted};
use std::alloc::{AllocError, Global};
use std::collections::BTreeMap;

/// The indexes of a primary.
pub(crate) fn list_of(lists: &BTreeMap<u32, Vec<FoundIndex>>, primary: u32) -> &[FoundIndex]
    ensures { result.now ≡ list_at lists.now primary }
{
    match lists.get(&primary) {
        Some(list) => list.as_slice(),
        None => &[],
    }
}

/// Puts an index of a primary. Out of memory changes no list.
pub(crate) fn put_in(
    alloc: Global,
    lists: &mut BTreeMap<u32, Vec<FoundIndex>>,
    primary: u32,
    index: FoundIndex,
) -> Result<(), AllocError>
    ensures ok { OnOk result ((n : ℕ) → list_at lists.new n ≡ (if n == primary then with_index index (list_at lists.old primary) else list_at lists.old n)) }
    ensures err { OnErr result ((n : ℕ) → list_at lists.new n ≡ list_at lists.old n) }
{
    if let Some(list) = lists.get_mut(&primary) {
        return sorted::insert(list, index);
    }
    let mut list = Vec::new(alloc);
    list.push(index)?;
    lists.insert(primary, list)?;
    Ok(())
}

/// Takes the index of a number out of those of a primary. It takes no memory.
pub(crate) fn take_out(lists: &mut BTreeMap<u32, Vec<FoundIndex>>, primary: u32, number: u32)
    ensures { (n : ℕ) → list_at lists.new n ≡ (if n == primary then without number (list_at lists.old primary) else list_at lists.old n) }
{
    if let Some(list) = lists.get_mut(&primary) {
        sorted::remove(list, number);
    }
}
