// Numbers in hexadecimal digits.
ghost use Rattle.std.specs.Prelude.{◌≡◌, ◌<◌, ◌≤◌, drop, false};
ghost use Rattle.std.specs.Fmt.{digit_glyph, digits};

// The lower-case digit of a value.
fn digit_of(value: u32) -> u8
    requires { value < 16 }
    ensures { result ≡ digit_glyph false value }
{
    if value < 10 {
        b'0' + value as u8
    } else {
        b'a' + (value as u8 - 10)
    }
}

/// Writes a number's lower-case hexadecimal digits, without leading zeros, at the end of a piece, and
/// answers where they begin.
pub fn write_hexadecimal(number: u32, into: &mut [u8; 8]) -> usize
    ensures digits { drop result into.new ≡ digits 16 false number }
    ensures within { result ≤ 8 }
{
    let mut rest = number;
    let mut start = 7;
    into[7] = digit_of(rest % 16);
    while 16 <= rest {
        rest /= 16;
        start -= 1;
        into[start] = digit_of(rest % 16);
    }
    start
}
