// The bytes of a line with a key or data.
ghost use Rattle.std.specs.Prelude.{◌≡◌, IfOk, length, ◌≤◌, IfSome};
ghost use Rattle.dump_text.specs.Values.{bytes_shown, line_bytes, short_bytes};

use crate::escape::unprinted;
use hex::FromHexError;
use je_order::Octets;
use std::alloc::{AllocError, Global};

// The bytes that a text shows, printed or as digits, if it shows any.
fn bytes_shown(alloc: Global, printed: bool, text: &[u8]) -> Result<Option<Octets>, AllocError>
    ensures { IfOk result (λ bytes. bytes ≡ bytes_shown printed text.now) }
{
    if printed {
        return unprinted(alloc, text);
    }
    match hex::decode(alloc, text) {
        Ok(bytes) => Ok(Some(Octets::from_vec(bytes))),
        Err(FromHexError::OutOfMemory) => Err(AllocError),
        Err(_) => Ok(None),
    }
}

// Bytes, if they are no more than so many.
fn short_bytes(bytes: Option<Octets>, most: usize) -> Option<Octets>
    ensures { result ≡ short_bytes most bytes }
{
    let bytes = bytes?;
    if bytes.len() <= most {
        Some(bytes)
    } else {
        None
    }
}

/// The bytes in a line, no more than so many, if it has some.
pub fn line_bytes(
    alloc: Global,
    printed: bool,
    most: usize,
    line: &[u8],
) -> Result<Option<Octets>, AllocError>
    ensures { IfOk result (λ bytes. bytes ≡ line_bytes printed most line.now) }
{
    match line {
        [32, text @ ..] => {
            let bytes = bytes_shown(alloc, printed, text)?;
            Ok(short_bytes(bytes, most))
        }
        _ => Ok(None),
    }
}
