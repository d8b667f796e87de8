ghost use Rattle.std.specs.Prelude.{◌≡◌, ◌∷◌, ◌≤◌, length, slice_get};
ghost use Rattle.msp_decode.specs.FollowingWords.{following_words};

use crate::following_words::FollowingWords;
use std::marker::Model;

/// The 1 to 3 words of an instruction, the extension words after the first.
#[derive(Clone, Copy, Debug, PartialEq, Eq)]
pub struct Words {
    first: u16,
    rest: FollowingWords,
}

impl Model for Words {
    ghost use Rattle.std.{specs.Prelude.{◌≡◌, ◌∷◌, ℕ, List, slice_index, drop}, proofs.Common.ap};
    ghost use Rattle.msp_decode.specs.FollowingWords.{following_words, following_words_in, following_words_in-following_words};

    ghost Value = { List ℕ };

    ghost view = { λ words. words.first ∷ following_words words.rest };

    ghost inverse = { λ words.
        record { first = slice_index words 0; rest = following_words_in (drop 1 words) } };

    ghost inverse_ok = { λ words _.
        ap (λ f. record { first = words.first; rest = f })
        (following_words_in-following_words words.rest) };
}

impl Words {
    pub(crate) fn new(first: u16, rest: FollowingWords) -> Words
        ensures { result ≡ first ∷ following_words rest }
    {
        Words { first, rest }
    }

    /// The number of words.
    pub fn len(&self) -> usize
        ensures value { result ≡ length self.now }
        ensures least { 1 ≤ result }
        ensures most { result ≤ 3 }
    {
        match self.rest {
            FollowingWords::Nothing => 1,
            FollowingWords::One(_) => 2,
            FollowingWords::Two(..) => 3,
        }
    }

    /// The word at an index from 0; `None` past the last.
    pub fn get(&self, i: usize) -> Option<u16>
        ensures { result ≡ slice_get self.now i }
    {
        match (i, self.rest) {
            (0, _) => Some(self.first),
            (1, FollowingWords::One(second) | FollowingWords::Two(second, _)) => Some(second),
            (2, FollowingWords::Two(_, third)) => Some(third),
            _ => None,
        }
    }
}
