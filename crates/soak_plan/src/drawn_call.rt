// A call that was drawn.
use store_model::Call;

/// A call, and the last number that was drawn for it.
#[derive(Drop)]
pub struct DrawnCall {
    pub call: Call,
    pub number: u32,
}
