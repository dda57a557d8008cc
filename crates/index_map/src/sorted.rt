// Indexes by rising number.
ghost use Rattle.std.specs.Prelude.{◌≡◌, ◌<◌, ◌≤◌, nat_lt, length, position, IfSome, OnOk, OnErr};
ghost use Rattle.std.specs.List.{position_or_len};
ghost use Rattle.index_map.specs.Made.{with_index, without};

use crate::FoundIndex;
use std::alloc::AllocError;

// Where the first index with a higher number stands, if there is one.
fn higher_in(indexes: &[FoundIndex], number: u32) -> Option<usize>
    ensures at { result ≡ position (λ i. nat_lt number i.number) indexes.now }
    ensures within { IfSome result (λ place. place < length indexes.now) }
{
    indexes.iter().position(|index| number < index.number)
}

// How many indexes stand before it.
fn place_of(indexes: &[FoundIndex], number: u32) -> usize
    ensures place { result ≡ position_or_len (λ i. nat_lt number i.number) indexes.now }
    ensures within { result ≤ length indexes.now }
{
    match higher_in(indexes, number) {
        Some(place) => place,
        None => indexes.len(),
    }
}

/// Puts an index behind those of lower numbers. Out of memory changes nothing.
pub(crate) fn insert(indexes: &mut Vec<FoundIndex>, index: FoundIndex) -> Result<(), AllocError>
    ensures ok { OnOk result (indexes.new.items ≡ with_index index indexes.old.items) }
    ensures err { OnErr result (indexes.new.items ≡ indexes.old.items) }
{
    let place = place_of(indexes, index.number);
    indexes.insert(place, index)?;
    Ok(())
}

/// Takes the index of a number out. It takes no memory.
pub(crate) fn remove(indexes: &mut Vec<FoundIndex>, number: u32)
    ensures { indexes.new.items ≡ without number indexes.old.items }
{
    indexes.retain(|index| index.number != number);
}
