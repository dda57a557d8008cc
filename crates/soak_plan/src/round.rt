// One round.
use crate::soak_state::SoakState;
use store_model::Call;

/// One round: the session (1 to 4), its call, and where the drawing stands after it.
#[derive(Drop)]
pub struct Round {
    pub session: u8,
    pub call: Call,
    pub after: SoakState,
}
