// What a byte of a printed text comes to.
use crate::escape::Escape;

/// What one more byte of a printed text comes to: where the reading then stands, and the byte that the text shows
/// there, if it shows one.
#[derive(Clone, Copy)]
pub struct Unescaped {
    pub escape: Escape,
    pub byte: Option<u8>,
}
