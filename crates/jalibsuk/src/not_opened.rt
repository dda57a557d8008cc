// An environment that was not opened.
use crate::Error;

/// Why an environment was not opened, and the disk as it was left.
#[derive(Drop)]
pub struct NotOpened<D> {
    pub error: Error,
    pub disk: D,
}
