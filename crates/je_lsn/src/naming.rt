// The names of log files.
ghost use Rattle.std.specs.Prelude.{◌≡◌, ◌≢◌, ℕ, ◌<◌, ◌≤◌, IfSome, IsNone, length, false};
ghost use Rattle.std.specs.Fmt.{digit_glyph};
ghost use Rattle.je_lsn.specs.Naming.{digit, digit_value, name_of, number_in_name, last_file};

use crate::{FileNo, LAST_FILE};

/// The lower-case hexadecimal digit of a value.
#[tactic(auto, unfolding(crate::specs::Naming::digit))]
pub fn hex_digit(value: u32) -> u8
    requires { value < 16 }
    ensures digit { result ≡ digit value }
    ensures glyph { result ≡ digit_glyph false value }
{
    if value <= 9 {
        b'0' + value as u8
    } else {
        b'a' + (value as u8 - 10)
    }
}

#[tactic(auto, unfolding(crate::specs::Naming::digit_value))]
fn hex_value(character: u8) -> u32
    ensures value { result ≡ digit_value character }
    ensures small { result < 16 }
{
    match character {
        b'0'..=b'9' => u32::from(character) - 48,
        b'a'..=b'f' => u32::from(character) - 87,
        _ => 0,
    }
}

/// The name of a log file: eight lower-case hexadecimal digits and `.jdb`.
pub fn file_name(f: FileNo) -> [u8; 12]
    ensures { result ≡ name_of f.0 }
{
    [
        hex_digit(f.0 / 0x1000_0000 % 16),
        hex_digit(f.0 / 0x100_0000 % 16),
        hex_digit(f.0 / 0x10_0000 % 16),
        hex_digit(f.0 / 0x1_0000 % 16),
        hex_digit(f.0 / 0x1000 % 16),
        hex_digit(f.0 / 0x100 % 16),
        hex_digit(f.0 / 0x10 % 16),
        hex_digit(f.0 % 16),
        b'.',
        b'j',
        b'd',
        b'b',
    ]
}

fn number(name: &[u8]) -> u32
    requires { length name.now ≡ 12 }
    ensures { result ≡ number_in_name name.now }
{
    let high = hex_value(name[0]) * 0x1000
        + hex_value(name[1]) * 0x100
        + hex_value(name[2]) * 0x10
        + hex_value(name[3]);
    let low = hex_value(name[4]) * 0x1000
        + hex_value(name[5]) * 0x100
        + hex_value(name[6]) * 0x10
        + hex_value(name[7]);
    high * 0x1_0000 + low
}

/// The file whose name this is, up to the file 0xfffffffe; None for every other name, so for
/// `ffffffff.jdb`, for upper-case digits, and for names of any other length or ending.
pub fn parse_name(name: &[u8]) -> Option<FileNo>
    ensures named { (f : ℕ) → f ≤ last_file → name.now ≡ name_of f → result ≡ Some (record { 0 = f }) }
    ensures only { IfSome result (λ f. name.now ≡ name_of f.0) }
    ensures below { IfSome result (λ f. f.0 ≤ last_file) }
    ensures none { IsNone result → (f : ℕ) → f ≤ last_file → name.now ≢ name_of f }
{
    if name.len() != 12 {
        return None;
    }
    let f = FileNo(number(name));
    if f.0 > LAST_FILE {
        return None;
    }
    if file_name(f).as_slice() != name {
        return None;
    }
    Some(f)
}
