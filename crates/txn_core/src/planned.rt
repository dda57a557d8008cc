// What a call comes to.
use crate::planned_changes::PlannedChanges;
use store_model::Answer;

/// What a call of a valid environment comes to, before anything is changed.
#[derive(Drop)]
pub enum Planned {
    /// An answer, and nothing to log.
    Answered(Answer),
    /// Changes to log, at least one. Room in the log and the last database number are not asked yet.
    Logs(PlannedChanges),
    /// Changes to log that make an index and fill it: that of the catalog, and one for each pair, in order of their names.
    /// Room in the log and the last database number are not asked yet.
    Fills(PlannedChanges),
}
