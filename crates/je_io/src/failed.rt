// A fault.

/// A fault of a source or a sink. It comes only where the object's count of faults rose.
#[derive(Clone, Copy, Debug, PartialEq, Eq)]
pub struct Failed;
