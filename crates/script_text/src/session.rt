// A session's name.
ghost use Rattle.std.specs.Prelude.{◌≡◌};
ghost use Rattle.script_text.specs.Grammar.{session_of, one_digit, two_digits};
ghost use Rattle.script_text.specs.Indexes.{is_digit};

// The greatest number of a session.
const MOST_SESSION: u8 = 64;

// The number of the session that a word names, if it names one.
pub fn session_number(word: &[u8]) -> Option<u8>
    ensures { result ≡ session_of word.now }
{
    match word {
        [letter, ones] => short_name(*letter, *ones),
        [letter, tens, ones] => long_name(*letter, *tens, *ones),
        _ => None,
    }
}

// Whether a byte is a decimal digit.
pub(crate) fn is_digit(c: u8) -> bool
    ensures { result ≡ is_digit c }
{
    matches!(c, b'0'..=b'9')
}

fn short_name(letter: u8, ones: u8) -> Option<u8>
    ensures { result ≡ one_digit letter ones }
{
    if letter == b's' && is_digit(ones) && ones != b'0' {
        Some(ones - b'0')
    } else {
        None
    }
}

fn long_name(letter: u8, tens: u8, ones: u8) -> Option<u8>
    ensures { result ≡ two_digits letter tens ones }
{
    if letter != b's' || !is_digit(tens) || !is_digit(ones) || tens == b'0' {
        return None;
    }
    let number = 10 * (tens - b'0') + (ones - b'0');
    if number <= MOST_SESSION {
        Some(number)
    } else {
        None
    }
}
