// The lines of a file.
use crate::log_line::LogLine;
use je_lsn::Lsn;

/// What is printed of one file: a line for each entry of its valid prefix, in order, and where its torn tail begins, if
/// it has one.
#[derive(Drop)]
pub struct FileLines {
    pub lines: Vec<LogLine>,
    pub torn: Option<Lsn>,
}
