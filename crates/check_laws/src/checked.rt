// What a check comes to.
use crate::database_count::DatabaseCount;
use crate::file_run::FileRun;
use crate::finding::Finding;
use je_order::List;

/// What a check of a log's files comes to: the files in order, the databases by name with what is right in them, and
/// all findings in the order of reading.
#[derive(Drop)]
pub struct Checked {
    pub files: List<FileRun>,
    pub databases: List<DatabaseCount>,
    pub findings: List<Finding>,
}
