// What became of a call's needs.
use je_order::List;
use store_model::{Answer, Victim};

/// What became of the locks that a call needs. `Ready`: it has them all, and is to be `answered` or given up.
/// `Stopped`: another transaction is in its way; the call is answered so, and each victim's waiting call is
/// answered with a deadlock. The call's own may be among them.
#[derive(Drop)]
pub enum Taken {
    Ready,
    Stopped {
        answer: Answer,
        victims: List<Victim>,
    },
}
