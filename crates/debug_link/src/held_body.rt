ghost use Rattle.std.specs.Prelude.{◌≡◌, ◌≤◌, ℕ, List, ◌++◌, ◌∷◌, [], length, option_map, IfSome};
ghost use Rattle.debug_link.specs.{Conversation.LONGEST_BODY as longest, HeldBody.held_of};

use arrayvec::ArrayVec;
use std::marker::Model;

/// The most bytes of a packet's body.
pub const LONGEST_BODY: usize = 4_096;

/// The body of a packet as it comes. Of one that is too long only the sum is kept.
#[derive(Drop)]
pub struct HeldBody {
    bytes: ArrayVec<u8, LONGEST_BODY>,
    is_over: bool,
    sum: u8,
}

impl Model for HeldBody {
    ghost use Rattle.std.specs.Prelude.{◌≡◌, Some, None, IsTrue, if◌then◌else◌};
    ghost use Rattle.arrayvec.specs.ArrayVec.{array_vec_len};
    ghost use Rattle.debug_link.specs.HeldBody.{HeldBody as HeldFields};

    ghost Value = { HeldFields };

    ghost view = { λ held. record {
      bytes = if held.is_over then None else Some held.bytes.items;
      sum = held.sum;
    } };

    // Of a body that is too long all places are taken.
    ghost invariant = { λ held. IsTrue held.is_over → array_vec_len held.bytes ≡ 4096 };
}

impl HeldBody {
    /// A body without a byte.
    pub fn new() -> HeldBody
        ensures { result ≡ held_of [] }
    {
        HeldBody {
            bytes: ArrayVec::new(),
            is_over: false,
            sum: 0,
        }
    }

    /// Takes one byte more.
    pub fn push(&mut self, byte: u8)
        ensures { (body : List ℕ) → self.old ≡ held_of body
            → self.new ≡ held_of (body ++ byte ∷ []) }
    {
        self.sum = self.sum.wrapping_add(byte);
        if self.bytes.try_push(byte).is_err() {
            self.is_over = true;
        }
    }

    /// Begins anew.
    pub fn clear(&mut self)
        ensures { self.new ≡ held_of [] }
    {
        self.bytes.clear();
        self.is_over = false;
        self.sum = 0;
    }

    /// The bytes added, modulo 256.
    pub fn sum(&self) -> u8
        ensures { result ≡ self.now.sum }
    {
        self.sum
    }

    /// The bytes, where they are not too many.
    pub fn bytes(&self) -> Option<&[u8]>
        ensures bytes { option_map (λ bytes. bytes.now) result ≡ self.now.bytes }
        ensures few { IfSome result (λ bytes. length bytes.now ≤ longest) }
    {
        if self.is_over {
            None
        } else {
            Some(self.bytes.as_slice())
        }
    }
}
