// Why a tree was not changed while a log is read again.
use std::alloc::AllocError;

/// Why a tree was not changed while a log is read again. Nothing is known of the trees then.
#[derive(Clone, Copy, Debug, PartialEq, Eq)]
pub enum LoadErr {
    /// Out of memory.
    Memory,
}

impl From<AllocError> for LoadErr {
    ghost use Rattle.std.specs.Prelude.{◌≡◌};
    ghost use Rattle.record_tree.specs.declared.load_err.LoadErr.TheVariants.{Memory};

    ghost from_gives = { λ _ e. e ≡ Memory };

    fn from(_: AllocError) -> LoadErr {
        LoadErr::Memory
    }
}
