// Bytes that are printed.
ghost use Rattle.std.specs.Prelude.{◌≡◌, IfOk, OnOk, IfSome, ◌<◌};
ghost use Rattle.hex.specs.Hex.{hex_digit_value};
ghost use Rattle.dump_text.specs.Values.{byte_of_digits, escape_step, unprinted, unprinted_behind, with_byte};

use crate::unescaped::Unescaped;
use je_order::Octets;
use std::alloc::{AllocError, Global};

/// Where the reading of a printed text stands: in its text, behind a backslash, or behind a backslash and the digit
/// that stands there.
#[derive(Clone, Copy)]
pub enum Escape {
    Text,
    Slash,
    Digit(u8),
}

// The value of a hexadecimal digit, if it is one.
fn digit_value(c: u8) -> Option<u8>
    ensures value { result ≡ hex_digit_value c }
    ensures small { IfSome result (λ v. v < 16) }
{
    if c >= 65 && c <= 70 {
        Some(c - 55)
    } else if c >= 97 && c <= 102 {
        Some(c - 87)
    } else if c >= 48 && c <= 57 {
        Some(c - 48)
    } else {
        None
    }
}

// The byte of two digits, if both are digits.
fn byte_of_digits(high: u8, low: u8) -> Option<u8>
    ensures { result ≡ byte_of_digits (hex_digit_value high) (hex_digit_value low) }
{
    let high = digit_value(high)?;
    let low = digit_value(low)?;
    Some(high * 16 + low)
}

// What one more byte of a printed text comes to, if it may stand there.
fn escape_step(escape: Escape, c: u8) -> Option<Unescaped>
    ensures { result ≡ escape_step escape c }
{
    match escape {
        Escape::Text => {
            if c == 92 {
                Some(Unescaped {
                    escape: Escape::Slash,
                    byte: None,
                })
            } else if c >= 32 && c <= 126 {
                Some(Unescaped {
                    escape: Escape::Text,
                    byte: Some(c),
                })
            } else {
                None
            }
        }
        Escape::Slash => {
            if c == 92 {
                Some(Unescaped {
                    escape: Escape::Text,
                    byte: Some(c),
                })
            } else if digit_value(c).is_some() {
                Some(Unescaped {
                    escape: Escape::Digit(c),
                    byte: None,
                })
            } else {
                None
            }
        }
        Escape::Digit(high) => match byte_of_digits(high, c) {
            Some(byte) => Some(Unescaped {
                escape: Escape::Text,
                byte: Some(byte),
            }),
            None => None,
        },
    }
}

// Puts a byte behind others, if there is one.
fn push_byte(bytes: &mut Vec<u8>, byte: Option<u8>) -> Result<(), AllocError>
    ensures { OnOk result (bytes.new.items ≡ with_byte bytes.old.items byte) }
{
    if let Some(byte) = byte {
        bytes.push(byte)?;
    }
    Ok(())
}

/// The bytes that a printed text shows, if it shows any.
pub fn unprinted(alloc: Global, text: &[u8]) -> Result<Option<Octets>, AllocError>
    ensures { IfOk result (λ bytes. bytes ≡ unprinted text.now) }
{
    let mut bytes = Vec::new(alloc);
    let mut escape = Escape::Text;
    for c in text {
        let Some(next) = escape_step(escape, *c) else {
            return Ok(None);
        };
        push_byte(&mut bytes, next.byte)?;
        escape = next.escape;
    }
    match escape {
        Escape::Text => Ok(Some(Octets::from_vec(bytes))),
        _ => Ok(None),
    }
}
