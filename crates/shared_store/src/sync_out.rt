// A sync that is out.

/// A sync that is out: its job's number, and how many commits it makes durable.
#[derive(Clone, Copy)]
pub struct SyncOut {
    pub number: u64,
    pub commits: u64,
}
