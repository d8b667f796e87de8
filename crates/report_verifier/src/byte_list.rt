ghost use Rattle.std.specs.Prelude.{◌≡◌, ◌≤◌, ◌+◌, ◌++◌, ◌∷◌, [], length};
ghost use Rattle.part_definitions.specs.Attestation.{bytes_of_words};

use arrayvec::ArrayVec;
use std::marker::Model;

/// At most so many bytes, in an array of their own, seen as a list.
#[derive(Drop)]
pub struct ByteList<const MOST: usize> {
    bytes: ArrayVec<u8, MOST>,
}

impl<const MOST: usize> Model for ByteList<MOST> {
    ghost use Rattle.std.specs.Prelude.{ℕ, List};

    ghost Value = { List ℕ };

    ghost view = { λ list. list.bytes.items };
}

impl<const MOST: usize> ByteList<MOST> {
    pub fn new() -> ByteList<MOST>
        ensures { result ≡ [] }
    {
        ByteList {
            bytes: ArrayVec::new(),
        }
    }

    pub fn as_slice(&self) -> &[u8]
        ensures { result.now ≡ self.now }
    {
        self.bytes.as_slice()
    }

    /// Puts bytes after the others, where they fit.
    pub fn push(&mut self, piece: &[u8])
        ensures { length self.old + length piece.now ≤ MOST → self.new ≡ self.old ++ piece.now }
    {
        let _ = self.bytes.try_extend_from_slice(piece);
    }

    /// Puts a word after the other bytes, its low byte first, where it fits.
    pub fn push_word(&mut self, word: u16)
        ensures { length self.old + 2 ≤ MOST
            → self.new ≡ self.old ++ bytes_of_words (word ∷ []) }
    {
        self.push(&word.to_le_bytes());
    }
}
