ghost use Rattle.std.specs.Prelude.{◌≡◌};
ghost use Rattle.device_types.specs.Address.{even};
ghost use Rattle.part_definitions.specs.PeripheralRegister.{covers, part_of};

use device_types::even;
use word_arith::Size;

/// The address of the register that the byte at `place` belongs to.
pub fn register_place(place: u16) -> u16
    ensures { result ≡ even place }
{
    even(place)
}

/// Whether an access has the byte at the address `byte` among its own.
pub fn covers_byte(place: u16, size: Size, byte: u16) -> bool
    ensures { result ≡ covers place size byte }
{
    match size {
        Size::Byte => place == byte,
        Size::Word => register_place(place) == register_place(byte),
    }
}

/// What an access reads of a register with this word.
pub fn part_of_word(word: u16, place: u16, size: Size) -> u16
    ensures { result ≡ part_of word place size }
{
    match size {
        Size::Byte if place % 2 == 0 => word % 0x100,
        Size::Byte => word / 0x100,
        Size::Word => word,
    }
}
