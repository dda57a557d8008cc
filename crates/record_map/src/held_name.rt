// How a name is held in memory.
use je_order::Name;

/// How many bytes a key has at most that is held whole.
pub(crate) const SHORT: usize = 22;

/// How many bytes of a longer key are held beside its name.
pub(crate) const HEAD: usize = 15;

/// A name in memory.
#[derive(Drop)]
pub(crate) enum HeldName {
    /// One of no dup: how many bytes its key has, and these with zeros behind them.
    Short(u8, [u8; SHORT]),
    /// Any other: the first bytes of its key, with zeros behind fewer, and the name.
    Long([u8; HEAD], Box<Name>),
}
