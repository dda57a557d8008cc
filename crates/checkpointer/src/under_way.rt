// A checkpoint under way.
use je_lsn::Lsn;

/// A checkpoint under way. Which nodes it noted, the trees know.
#[derive(Clone, Copy)]
pub struct UnderWay {
    /// Its number.
    pub number: u64,
    /// Where it began.
    pub start: Lsn,
}
