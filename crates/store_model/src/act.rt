// What an environment is asked to do.
use crate::{Call, Step};

/// One thing that an environment is asked to do. A resumed call is one that waits and may go on.
#[derive(Drop)]
pub enum Act {
    Call { session: u8, line: u32, call: Call },
    Resume { session: u8, line: u32 },
    End { session: u8 },
    Turn { line: u32, step: Step },
}
