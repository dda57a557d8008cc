//! Numbers and runs of bytes, read from the front of a slice and put at the end of a vector, and the
//! Adler-32 checksum. It stands on `byteorder`, and speaks in std's words: a number's big-endian bytes
//! are `to_be_bytes w n`, and what bytes read as is `from_be_bytes w bytes`. Upward it promises that a
//! read takes exactly the bytes of one field or leaves the reader as it was, and that a put adds exactly
//! the bytes of one field or leaves the vector as it was.
#![tactic(auto)]

pub mod checksum;
pub mod laws;
pub mod putting;
pub mod reader;

pub use checksum::adler32;
pub use laws::numbers_are_their_bytes;
pub use putting::{put_u16, put_u32, put_u64};
pub use reader::{Reader, Short};
