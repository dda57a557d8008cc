// Marking a victim.
ghost use Rattle.std.specs.Prelude.{◌≡◌, ◌∷◌, [], ℕ};
ghost use Rattle.je_answers.specs.After.{marked};
ghost use Rattle.active_txns.specs.Marks.{marked_for, HaveOwnSessions};

use je_answers::Active;
use je_order::{List, TxnId};

// Marks the first transaction of a session in the list, if there is one. It takes no memory.
pub(crate) fn mark_in(actives: &mut [Active], session: u8, cycle: List<TxnId>)
    ensures first { actives.new ≡ marked_for session cycle actives.old }
    ensures marked { HaveOwnSessions actives.old → (line : ℕ) → actives.new ≡ marked (record { session = session; line = line; cycle = cycle } ∷ []) actives.old }
{
    for at in 0..actives.len() {
        if actives[at].session == session {
            actives[at].deadlock = Some(cycle);
            return;
        }
    }
    drop(cycle);
}
