ghost use Rattle.std.specs.Prelude.{◌≡◌, ℕ, List};

use std::marker::Model;

/// Characters of a source, in its text: those of a name, or those between two quotes.
#[derive(Debug, Drop)]
pub struct Characters<'a> {
    part: &'a [u8],
}

impl<'a> Model for Characters<'a> {
    ghost Value = { List ℕ };

    ghost view = { λ characters. characters.part.now };
}

impl<'a> Characters<'a> {
    pub(crate) fn new(part: &'a [u8]) -> Characters<'a>
        ensures { result ≡ part.now }
    {
        Characters { part }
    }

    // The same characters of the text again.
    pub(crate) fn again(&self) -> Characters<'a>
        ensures { result ≡ self.now }
    {
        Characters { part: self.part }
    }

    /// The characters as a part of the text.
    pub fn as_slice(&self) -> &'a [u8]
        ensures { result.now ≡ self.now }
    {
        self.part
    }
}
