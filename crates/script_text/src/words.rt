// The words of a line, one after another.
ghost use Rattle.std.specs.Prelude.{◌≡◌, ◌++◌, [], option_to_list, option_copied, IfNone};

use std::marker::Model;
use text_lines::find_byte;

// The words of a line that are still to be read, seen as the list of them.
#[derive(Drop)]
pub struct Words<'a> {
    rest: Option<&'a [u8]>,
}

impl<'a> Model for Words<'a> {
    ghost use Rattle.std.specs.Prelude.{List, ℕ, option_copied};
    ghost use Rattle.script_text.specs.Words.{words_left};

    ghost Value = { List (List ℕ) };

    ghost view = { λ a. words_left (option_copied a.rest) };
}

impl<'a> Words<'a> {
    ghost use Rattle.script_text.specs.Words.{words_of};

    // All words of a line.
    pub fn new(line: &'a [u8]) -> Words<'a>
        ensures { result ≡ words_of line.now }
    {
        Words { rest: Some(line) }
    }

    // The next word, and none where each has been read.
    pub fn next(&mut self) -> Option<&'a [u8]>
        ensures next { self.old ≡ option_to_list (option_copied result) ++ self.new }
        ensures none { IfNone result (self.old ≡ []) }
    {
        let text = self.rest?;
        match find_byte(b' ', text) {
            Some(at) => {
                self.rest = Some(&text[at + 1..]);
                Some(&text[..at])
            }
            None => {
                self.rest = None;
                Some(text)
            }
        }
    }
}
