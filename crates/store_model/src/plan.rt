// What a script asks for.
use crate::{Call, Step};
use je_order::List;

/// One line of a script, by its number (from 1): a session (1 to 64) and its call, or a step of
/// maintenance.
#[derive(Drop, PartialEq, Eq)]
pub enum ScriptLine {
    Session { session: u8, line: u32, call: Call },
    Maintenance { line: u32, step: Step },
}

/// A script's lines, in order.
#[derive(Drop)]
pub struct RunPlan {
    pub lines: List<ScriptLine>,
}
