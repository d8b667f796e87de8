ghost use Rattle.std.specs.Prelude.{◌≡◌, ◌≤◌, length};
ghost use Rattle.asm_text.specs.Name.{reg_name, register_of};

use crate::name_table::{name_of, value_named};
use msp_decode::Reg::{self, R0, R1, R2, R3, R4, R5, R6, R7, R8, R9, R10, R11, R12, R13, R14, R15};

macro_rules! registers {
    ($read:ident $of:expr) => {
        $read!($of;
            R0 b"r0", R1 b"r1", R2 b"r2", R3 b"r3", R4 b"r4", R5 b"r5", R6 b"r6", R7 b"r7",
            R8 b"r8", R9 b"r9", R10 b"r10", R11 b"r11", R12 b"r12", R13 b"r13", R14 b"r14",
            R15 b"r15")
    };
}

/// The name of a register by its number.
pub fn reg_name(register: Reg) -> &'static [u8]
    ensures name { result.now ≡ reg_name register }
    ensures len { length result.now ≤ 3 }
{
    registers!(name_of register)
}

/// The register that a word in lower case names.
pub fn register_of(word: &[u8]) -> Option<Reg>
    ensures { result ≡ register_of word.now }
{
    match word {
        b"pc" => Some(R0),
        b"sp" => Some(R1),
        b"sr" => Some(R2),
        _ => registers!(value_named word),
    }
}
