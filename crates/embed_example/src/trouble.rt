// Why the program ended early.
use environment::OpenErr;
use std::alloc::AllocError;
use std::io;

/// Why the program ended early.
#[derive(Drop)]
pub enum Trouble {
    /// The environment was not opened.
    Open(OpenErr),
    /// Out of memory.
    Memory,
    /// The lines could not be printed.
    Print(io::Error),
}

impl From<OpenErr> for Trouble {
    fn from(error: OpenErr) -> Trouble {
        Trouble::Open(error)
    }
}

impl From<AllocError> for Trouble {
    fn from(_error: AllocError) -> Trouble {
        Trouble::Memory
    }
}

impl From<io::Error> for Trouble {
    fn from(error: io::Error) -> Trouble {
        Trouble::Print(error)
    }
}
