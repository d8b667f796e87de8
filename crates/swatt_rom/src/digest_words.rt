ghost use Rattle.std.specs.Prelude.{◌≡◌, ◌<◌, ◌≤◌, ◌+◌, ◌*◌, ◌%◌, ◌^◌, ◌↔◌, IsNone, IsSome};
ghost use Rattle.word_arith.specs.declared.size.Size.TheVariants.{Word};
ghost use Rattle.device_types.specs.Access.{IsFormed};
ghost use Rattle.part_definitions.specs.{BusAccess.write_at, Attestation.word_of_bytes};

use device_types::Access;
use word_arith::Size;

/// A digest whose sixteen words are written one by one; some are left.
#[derive(Clone, Copy, Debug)]
pub struct DigestWords {
    pub bytes: [u8; 32],
    /// The number of the next word.
    pub next: usize,
    pub ghost some_left: { next < 16 },
}

impl DigestWords {
    pub fn new(bytes: [u8; 32]) -> DigestWords
        ensures bytes { result.bytes ≡ bytes }
        ensures next { result.next ≡ 0 }
    {
        DigestWords { bytes, next: 0 }
    }

    /// The write of the next word, of a digest that begins at `first`.
    pub fn access(self, first: u16) -> Access
        requires even { first % 2 ≡ 0 }
        requires fits { first + 32 ≤ 2 ^ 16 }
        ensures access { result
            ≡ write_at Word (first + 2 * self.next) (word_of_bytes self.bytes self.next) }
        ensures formed { IsFormed result }
    {
        let low = 2 * self.next;
        let word = u16::from_le_bytes([self.bytes[low], self.bytes[low + 1]]);
        Access::Write(first + low as u16, Size::Word, word)
    }

    /// Goes on to the word after the next, `Some` where that was the last.
    pub fn pass(&mut self) -> Option<()>
        ensures last { IsSome result ↔ (self.old.next + 1 ≡ 16) }
        ensures bytes { self.new.bytes ≡ self.old.bytes }
        ensures next { IsNone result → self.new.next ≡ self.old.next + 1 }
    {
        if self.next + 1 == 16 {
            return Some(());
        }
        self.next += 1;
        None
    }
}
