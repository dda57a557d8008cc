// What is wrong in one place.
use je_lsn::FileNo;
use je_order::Word;
use log_replay::Corruption;

/// What is wrong in one place.
#[derive(Drop)]
pub enum Finding {
    /// An entry, a node, a record or an LSN.
    Wrong(Corruption),
    /// The files of the numbers from `first` on, up to the one before `past`, are not there.
    Gap { first: FileNo, past: FileNo },
    /// The index of that name has not the pairs of its primary's records.
    Index(Word),
}
