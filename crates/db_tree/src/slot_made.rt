// What was made for a name's slot.
ghost use Rattle.std.specs.Prelude.{◌≡◌, false};

/// What was made for a name's slot while nothing is logged: how many nodes, and whether the slot is new.
#[derive(Clone, Copy)]
pub struct SlotMade {
    pub nodes: usize,
    pub is_new: bool,
}

impl SlotMade {
    /// Nothing was made.
    pub fn none() -> SlotMade
        ensures { result ≡ record { nodes = 0; is_new = false } }
    {
        SlotMade {
            nodes: 0,
            is_new: false,
        }
    }
}
