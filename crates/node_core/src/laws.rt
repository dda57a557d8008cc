// What holds of all nodes.
ghost use Rattle.node_core.specs.Sorted.{FindsWhatIsPut, PutsInPlace, AreTheirNames};

/// What is found by names says all of a list of slots. After a put the new slot is found by its name;
/// nothing else changes. A put is the slots with names below, the new slot, and the slots with names above.
pub fn slots_are_their_names()
    ensures put { FindsWhatIsPut }
    ensures place { PutsInPlace }
    ensures same { AreTheirNames }
{}
