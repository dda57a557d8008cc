// Keys and data as hexadecimal digits.
ghost use Rattle.std.specs.Prelude.{◌≡◌, ◌<◌, ◌*◌, ◌/◌, ◌≤◌, Some, None, length, IfOk, IfSome, if◌then◌else◌};
ghost use Rattle.hex.specs.Hex.{decode_of, hex_digit_value};
ghost use Rattle.script_text.specs.Bytes.{bytes_of, decoded_bytes};

use je_order::Octets;
use std::alloc::{AllocError, Global};

// How many bytes are read without asking for memory.
const FEW: usize = 30;

// The value of each byte as a hexadecimal digit of either case, or 255.
const VALUES: [u8; 256] = [
    255, 255, 255, 255, 255, 255, 255, 255, 255, 255, 255, 255, 255, 255, 255, 255, 255, 255, 255,
    255, 255, 255, 255, 255, 255, 255, 255, 255, 255, 255, 255, 255, 255, 255, 255, 255, 255, 255,
    255, 255, 255, 255, 255, 255, 255, 255, 255, 255, 0, 1, 2, 3, 4, 5, 6, 7, 8, 9, 255, 255, 255,
    255, 255, 255, 255, 10, 11, 12, 13, 14, 15, 255, 255, 255, 255, 255, 255, 255, 255, 255, 255,
    255, 255, 255, 255, 255, 255, 255, 255, 255, 255, 255, 255, 255, 255, 255, 255, 10, 11, 12, 13,
    14, 15, 255, 255, 255, 255, 255, 255, 255, 255, 255, 255, 255, 255, 255, 255, 255, 255, 255,
    255, 255, 255, 255, 255, 255, 255, 255, 255, 255, 255, 255, 255, 255, 255, 255, 255, 255, 255,
    255, 255, 255, 255, 255, 255, 255, 255, 255, 255, 255, 255, 255, 255, 255, 255, 255, 255, 255,
    255, 255, 255, 255, 255, 255, 255, 255, 255, 255, 255, 255, 255, 255, 255, 255, 255, 255, 255,
    255, 255, 255, 255, 255, 255, 255, 255, 255, 255, 255, 255, 255, 255, 255, 255, 255, 255, 255,
    255, 255, 255, 255, 255, 255, 255, 255, 255, 255, 255, 255, 255, 255, 255, 255, 255, 255, 255,
    255, 255, 255, 255, 255, 255, 255, 255, 255, 255, 255, 255, 255, 255, 255, 255, 255, 255, 255,
    255, 255, 255, 255, 255, 255, 255, 255, 255, 255, 255, 255, 255, 255, 255, 255, 255, 255, 255,
    255, 255, 255,
];

// The value of a digit, if it is one.
fn digit_value(c: u8) -> Option<u8>
    ensures value { result ≡ hex_digit_value c }
    ensures small { IfSome result (λ v. v < 16) }
{
    let value = VALUES[c as usize];
    if value < 16 { Some(value) } else { None }
}

// Writes the bytes that digits spell, two for each byte. It answers whether all of them are digits.
fn decode(digits: &[u8], into: &mut [u8]) -> bool
    requires { length digits.now ≡ 2 * length into.old }
    ensures { decoded_bytes (decode_of digits.now) ≡ (if result then Some into.new else None) }
{
    for i in 0..into.len() {
        let Some(high) = digit_value(digits[2 * i]) else {
            return false;
        };
        let Some(low) = digit_value(digits[2 * i + 1]) else {
            return false;
        };
        into[i] = high * 16 + low;
    }
    true
}

// The bytes that a few digits spell, if they are digits.
fn few_bytes(alloc: Global, digits: &[u8]) -> Result<Option<Octets>, AllocError>
    requires even { length digits.now ≡ 2 * (length digits.now / 2) }
    requires few { length digits.now / 2 ≤ 30 }
    ensures { IfOk result (λ bytes. bytes ≡ decoded_bytes (decode_of digits.now)) }
{
    let mut bytes = [0u8; FEW];
    let count = digits.len() / 2;
    if !decode(digits, &mut bytes[..count]) {
        return Ok(None);
    }
    Ok(Some(Octets::from_slice(alloc, &bytes[..count])?))
}

// The bytes that any number of digits spell, if they are digits.
fn many_bytes(alloc: Global, digits: &[u8]) -> Result<Option<Octets>, AllocError>
    requires { length digits.now ≡ 2 * (length digits.now / 2) }
    ensures { IfOk result (λ bytes. bytes ≡ decoded_bytes (decode_of digits.now)) }
{
    let mut bytes = vec![in alloc; 0u8; digits.len() / 2]?;
    if !decode(digits, bytes.as_mut_slice()) {
        return Ok(None);
    }
    Ok(Some(Octets::from_vec(bytes)))
}

// The bytes that a word spells, if it spells any.
pub fn bytes_of(alloc: Global, word: &[u8]) -> Result<Option<Octets>, AllocError>
    ensures { IfOk result (λ bytes. bytes ≡ bytes_of word.now) }
{
    if word == b"-".as_slice() {
        return Ok(Some(Octets::new(alloc)));
    }
    if word.is_empty() || word.len() % 2 != 0 {
        return Ok(None);
    }
    if word.len() / 2 <= FEW {
        few_bytes(alloc, word)
    } else {
        many_bytes(alloc, word)
    }
}
