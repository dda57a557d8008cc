// Where the drawing stands.

/// Where the drawing of a soak stands: the number drawn last, and which of the sessions 1 to 4 have begun a
/// transaction and not committed it.
#[derive(Clone, Copy)]
pub struct SoakState {
    pub number: u32,
    pub begun: [bool; 4],
}
