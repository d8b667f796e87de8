ghost use Rattle.std.specs.Prelude.{◌≡◌, ◌<◌};

use crate::value_numbered::value_numbered;
use word_arith::Size;

/// An operation of one operand, by its mnemonic; in the order of their opcodes from 0.
#[derive(Clone, Copy, Debug, PartialEq, Eq)]
pub enum One {
    Rrc,
    Swpb,
    Rra,
    Sxt,
    Push,
    Call,
}

impl One {
    ghost use Rattle.msp_decode.specs.{Table.one_number, Field.one_of, Spelling.{has_size, writes_operand}};

    // The opcode.
    pub(crate) fn number(self) -> u16
        ensures value { result ≡ one_number self }
        ensures fits { result < 6 }
    {
        self as u16
    }

    // The operation of an opcode.
    pub(crate) fn from_number(number: u16) -> One
        requires { number < 6 }
        ensures { result ≡ one_of number }
    {
        value_numbered!(number; One: Rrc, Swpb, Rra, Sxt, Push, Call)
    }

    /// Whether there is an instruction of this size.
    pub fn has_size(self, size: Size) -> bool
        ensures { result ≡ has_size self size }
    {
        match size {
            Size::Word => true,
            Size::Byte => matches!(self, One::Rrc | One::Rra | One::Push),
        }
    }

    /// Whether the result is written to the operand.
    pub fn writes_operand(self) -> bool
        ensures { result ≡ writes_operand self }
    {
        matches!(self, One::Rrc | One::Swpb | One::Rra | One::Sxt)
    }
}
