ghost use Rattle.std.specs.Prelude.{◌≡◌, ◌<◌};

use crate::value_numbered::value_numbered;

/// A register. R0 is the program counter, R1 the stack pointer, R2 the status register and first
/// constant generator, R3 the second constant generator.
#[derive(Clone, Copy, Debug, PartialEq, Eq)]
pub enum Reg {
    R0,
    R1,
    R2,
    R3,
    R4,
    R5,
    R6,
    R7,
    R8,
    R9,
    R10,
    R11,
    R12,
    R13,
    R14,
    R15,
}

impl Reg {
    ghost use Rattle.msp_decode.specs.{Table.reg_number, Field.reg_of};

    /// The register's number, 0 to 15.
    pub fn number(self) -> u16
        ensures value { result ≡ reg_number self }
        ensures fits { result < 16 }
    {
        self as u16
    }

    /// The register of a number.
    pub fn from_number(number: u16) -> Reg
        requires { number < 16 }
        ensures value { result ≡ reg_of number }
        ensures back { reg_number result ≡ number }
    {
        value_numbered!(number;
            Reg: R0, R1, R2, R3, R4, R5, R6, R7, R8, R9, R10, R11, R12, R13, R14, R15)
    }
}
