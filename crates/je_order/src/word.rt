// A database's name.
ghost use Rattle.std.specs.Prelude.{◌≡◌, length, IfOk, IsTrue};
ghost use Rattle.std.specs.List.{list_all};
ghost use Rattle.je_order.specs.Words.{is_word, is_word_character};

use crate::{Exact, Octets};
use std::alloc::{AllocError, Global};
use std::marker::Model;

/// A database's name: 1 to 64 characters of `a-z 0-9 _`, seen as the list of them. No other text is a
/// `Word` (this project's own rule).
#[derive(Debug, Drop)]
pub struct Word {
    characters: Octets,
}

impl Model for Word {
    ghost use Rattle.std.specs.Prelude.{List, ℕ, IsTrue};
    ghost use Rattle.je_order.specs.Words.{is_word};

    ghost Value = { List ℕ };

    ghost view = { λ a. a.characters };

    ghost invariant = { λ a. IsTrue (is_word a.characters) };
}

fn is_word_byte(character: u8) -> bool
    ensures { result ≡ is_word_character character }
{
    matches!(character, b'a'..=b'z' | b'0'..=b'9' | b'_')
}

fn are_word_bytes(text: &[u8]) -> bool
    ensures { result ≡ list_all is_word_character text.now }
{
    text.iter().all(|character| is_word_byte(*character))
}

impl Word {
    /// Whether the text is a database's name. It takes no memory.
    pub fn is_word(text: &[u8]) -> bool
        ensures { result ≡ is_word text.now }
    {
        !text.is_empty() && text.len() <= 64 && are_word_bytes(text)
    }

    /// The text as a database's name; the only error is out of memory.
    pub fn from_slice(alloc: Global, text: &[u8]) -> Result<Word, AllocError>
        requires { IsTrue (is_word text.now) }
        ensures { IfOk result (λ word. word ≡ text.now) }
    {
        let characters = Octets::from_slice(alloc, text)?;
        Ok(Word { characters })
    }

    /// The characters, which are a name by the rule above.
    pub fn as_slice(&self) -> &[u8]
        ensures value { result.now ≡ self.now }
        ensures word { IsTrue (is_word self.now) }
    {
        self.characters.as_slice()
    }

    pub fn len(&self) -> usize
        ensures { result ≡ length self.now }
    {
        self.characters.len()
    }
}

impl Clone for Word {
    ghost is_clone = { λ v w. w ≡ v };

    fn clone(&self) -> Result<Word, AllocError> {
        let characters = self.characters.clone()?;
        Ok(Word { characters })
    }
}

impl Exact for Word {
    ghost exact = { λ x y h. h };
}

impl PartialEq for Word {
    ghost use Rattle.std.specs.Prelude.{nat_eq};
    ghost use lib.Pointwise.{pointwise};
    ghost use Rattle.std.proofs.lemmas.Cmp.{nat_list_eq_equiv};
    ghost use Rattle.std.specs.Cmp.{partial_equiv_from_equiv};

    ghost eq = { pointwise nat_eq };

    ghost laws = { partial_equiv_from_equiv nat_list_eq_equiv };

    fn eq(&self, other: &Word) -> bool {
        self.characters == other.characters
    }
}

impl Eq for Word {
    ghost use Rattle.std.proofs.lemmas.Cmp.{nat_list_eq_equiv};

    ghost laws = { nat_list_eq_equiv };
}
