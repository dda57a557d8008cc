// Room that is free again.
ghost use Rattle.std.specs.Prelude.{◌≡◌};

// How many items go before their room is given back.
const AT_ONCE: usize = 4096;

/// Gives back the room of items that are gone from the end, each time that so many are.
pub(crate) fn give_back<T>(left: &mut Vec<T>)
    ensures { left.new.items ≡ left.old.items }
{
    if left.len() % AT_ONCE == 0 {
        left.shrink_to_fit();
    }
}
