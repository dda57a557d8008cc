// Why an environment was not opened.
use je_order::Word;
use log_replay::Corruption;
use recovery_je::RecoverErr;

/// Why an environment was not opened. Its files are as they were, but for a torn tail that may have been
/// cut off where the disk failed or there was no memory.
#[derive(Drop)]
pub enum OpenErr {
    /// The disk failed.
    Disk,
    /// Out of memory.
    Memory,
    /// No number of a node is left: those of the files, with 66 more for each of their entries, may pass the
    /// last one.
    IdsEnded,
    /// The files cannot be opened; this is the first corruption in the order of reading.
    Unreadable(Corruption),
    /// The files can be read, but the pairs of the index of that name, the first one in name order, are not those of its
    /// primary's records.
    WrongIndex(Word),
}

impl From<RecoverErr> for OpenErr {
    ghost use Rattle.std.specs.Prelude.{◌≡◌};
    ghost use Rattle.engine.specs.Opening.{error_of_recovery};

    ghost from_gives = { λ failure error. error ≡ error_of_recovery failure };

    fn from(failure: RecoverErr) -> OpenErr {
        match failure {
            RecoverErr::Disk => OpenErr::Disk,
            RecoverErr::Memory => OpenErr::Memory,
            RecoverErr::Corrupt(corruption) => OpenErr::Unreadable(corruption),
            RecoverErr::WrongIndex(name) => OpenErr::WrongIndex(name),
        }
    }
}
