// A call that waits for its line.

use store_model::Durability;

// A call that was answered Logged: its session, its line, the number of its commit and what that waits for.
#[derive(Clone, Copy)]
pub struct LoggedCall {
    pub session: u8,
    pub line: u32,
    pub commit: u64,
    pub durability: Durability,
}
