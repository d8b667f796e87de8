ghost use Rattle.std.specs.Prelude.{◌≡◌, ◌%◌, [], ◌∷◌, List, ℕ};
ghost use Rattle.device_types.specs.Address.{even};
ghost use Rattle.part_definitions.specs.{Part.{Takes, Answers}, PeripheralRegister.{RegisterWrite, register_write, register_word}};

use crate::part::register_place;
use word_arith::Size;

/// A register that keeps what is written to it.
#[derive(Clone, Copy, Debug)]
pub struct Register {
    place: u16,
    word: u16,
    ghost even: { place % 2 ≡ 0 },
}

impl Register {
    ghost use Rattle.device_peripherals.specs.Register.{HoldsWrites};

    /// A register at an address, with all bits 0.
    pub fn new(place: u16) -> Register
        requires { place % 2 ≡ 0 }
        ensures { HoldsWrites place result [] }
    {
        Register { place, word: 0 }
    }

    /// What it holds.
    pub fn word(&self) -> u16
        ensures { (at : ℕ)
            → Answers (HoldsWrites at) self.now (λ writes. register_word writes at) result }
    {
        self.word
    }

    /// Writes the bytes that belong to this register, and no others.
    pub fn write(&mut self, place: u16, size: Size, value: u16)
        ensures { (at : ℕ)
            → Takes (HoldsWrites at) self.old (register_write place size value) self.new }
    {
        if register_place(place) == self.place {
            self.word = word_after(self.word, place, size, value);
        }
    }
}

// The word of the register at this place after a write to it.
#[tactic(auto, using(crate::proofs::Byte::register_bytes))]
fn word_after(word: u16, place: u16, size: Size, value: u16) -> u16
    ensures { (writes : List RegisterWrite)
        → word ≡ register_word writes (even place)
        → result
        ≡ register_word (register_write place size value ∷ writes) (even place) }
{
    match size {
        Size::Byte if place % 2 == 0 => word / 0x100 * 0x100 + value % 0x100,
        Size::Byte => value % 0x100 * 0x100 + word % 0x100,
        Size::Word => value,
    }
}
