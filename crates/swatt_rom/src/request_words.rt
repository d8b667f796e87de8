ghost use Rattle.std.specs.Prelude.{◌≡◌, ◌==◌, ◌<◌, ◌+◌, ◌++◌, ◌∷◌, ◌↔◌, [], length, IsNone, IsSome, IfSome};
ghost use Rattle.word_arith.specs.declared.size.Size.TheVariants.{Word};
ghost use Rattle.arrayvec.specs.ArrayVec.{array_vec_len};
ghost use Rattle.device_types.specs.Access.{IsFormed};
ghost use Rattle.part_definitions.specs.{BusAccess.read_at, Attestation.{key_read, metadata_read, kept_read}};

use crate::word_bytes::bytes_of;
use arrayvec::ArrayVec;
use device_types::{Access, KEPT_COUNTER, KR, META};
use std::mem;
use word_arith::Size;

/// How many words a call reads before it decides: 32 of the key, 40 of the metadata (sixteen of the
/// challenge, four bounds, the words of the two flags, two of the counter and sixteen of the token)
/// and two of the kept counter.
pub const REQUEST_WORDS: usize = 74;

/// The bytes of the key, of what a call read.
pub fn key_bytes(words: &[u16; REQUEST_WORDS]) -> ArrayVec<u8, 64>
    ensures { result.items ≡ key_read words.now }
{
    bytes_of(&words[..32])
}

/// Those of the metadata.
pub fn metadata_bytes(words: &[u16; REQUEST_WORDS]) -> ArrayVec<u8, 80>
    ensures bytes { result.items ≡ metadata_read words.now }
    ensures length { length result.items ≡ 80 }
{
    bytes_of(&words[32..72])
}

/// Those of the kept counter.
pub fn kept_bytes(words: &[u16; REQUEST_WORDS]) -> ArrayVec<u8, 4>
    ensures bytes { result.items ≡ kept_read words.now }
    ensures length { length result.items ≡ 4 }
{
    bytes_of(&words[72..74])
}

/// The words that a call reads before it decides, as far as they were read; some are left.
#[derive(Drop)]
pub struct RequestWords {
    pub words: ArrayVec<u16, REQUEST_WORDS>,
    pub ghost some_left: { array_vec_len words < 74 },
}

impl RequestWords {
    ghost use Rattle.swatt_rom.specs.Phase.{read_place};

    pub fn new() -> RequestWords
        ensures { result.words.items ≡ [] }
    {
        RequestWords {
            words: ArrayVec::new(),
        }
    }

    pub fn is_empty(&self) -> bool
        ensures { result ≡ (length self.now.words.items == 0) }
    {
        self.words.is_empty()
    }

    /// The read of the next word.
    pub fn access(&self) -> Access
        ensures access { result ≡ read_at Word (read_place (length self.now.words.items)) }
        ensures formed { IsFormed result }
    {
        let count = self.words.len() as u16;
        let place = if count < 32 {
            KR.first + 2 * count
        } else if count < 72 {
            META.first + 2 * (count - 32)
        } else {
            KEPT_COUNTER + 2 * (count - 72)
        };
        Access::Read(place, Size::Word)
    }

    /// Takes the next word: gives all words where it was the last.
    pub fn take(&mut self, word: u16) -> Option<[u16; REQUEST_WORDS]>
        ensures last { IsSome result ↔ (length self.old.words.items + 1 ≡ 74) }
        ensures all { IfSome result (λ words. words ≡ self.old.words.items ++ word ∷ []) }
        ensures more { IsNone result → self.new.words.items ≡ self.old.words.items ++ word ∷ [] }
    {
        if self.words.len() + 1 < REQUEST_WORDS {
            self.words.push(word);
            return None;
        }
        let mut words = mem::replace(&mut self.words, ArrayVec::new());
        words.push(word);
        words.into_inner().ok()
    }
}
