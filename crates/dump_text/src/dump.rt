// A dump that was read.
use crate::dump_pair::DumpPair;
use je_order::List;

/// A dump: whether its database has sorted duplicates, the number of the line that says so last (the line that ends the
/// header, where none does), and the pairs, in order.
#[derive(Drop)]
pub struct Dump {
    pub dup: bool,
    pub dup_line: u32,
    pub pairs: List<DumpPair>,
}
