// How data is held in memory.
use je_order::Octets;

/// How many bytes of data are held at most where they are near.
pub(crate) const NEAR: usize = 38;

/// A record's data in memory.
#[derive(Drop)]
pub(crate) enum HeldData {
    /// How many bytes there are, and these with zeros behind them.
    Near(u8, [u8; NEAR]),
    /// More bytes.
    Far(Octets),
}
