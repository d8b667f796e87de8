ghost use Rattle.std.specs.Prelude.{◌≡◌, ◌≤◌, length};
ghost use Rattle.named_value.specs.Names.{value_named};
ghost use Rattle.asm_text.specs.Name.{op2_name, one_name, jump_name, two_operand_names, one_operand_names, emulated_names, jump_of, mnemonic_of};

use crate::emulated::Emulated::{
    self, Adc, Br, Clr, Clrc, Clrn, Clrz, Dadc, Dec, Decd, Dint, Eint, Inc, Incd, Inv, Nop, Pop,
    Ret, Rla, Rlc, Sbc, Setc, Setn, Setz, Tst,
};
use crate::mnemonic::Mnemonic;
use crate::name_table::{name_of, value_named};
use msp_decode::Cond::{self, Always, C, Eq, Ge, L, N, Nc, Ne};
use msp_decode::One::{self, Call, Push, Rra, Rrc, Swpb, Sxt};
use word_arith::Op2::{self, Add, Addc, And, Bic, Bis, Bit, Cmp, Dadd, Mov, Sub, Subc, Xor};

macro_rules! two_operands {
    ($read:ident $of:expr) => {
        $read!($of;
            Mov b"mov", Add b"add", Addc b"addc", Subc b"subc", Sub b"sub", Cmp b"cmp",
            Dadd b"dadd", Bit b"bit", Bic b"bic", Bis b"bis", Xor b"xor", And b"and")
    };
}

macro_rules! one_operand {
    ($read:ident $of:expr) => {
        $read!($of;
            Rrc b"rrc", Swpb b"swpb", Rra b"rra", Sxt b"sxt", Push b"push", Call b"call")
    };
}

macro_rules! jumps {
    ($read:ident $of:expr) => {
        $read!($of;
            Ne b"jne", Eq b"jeq", Nc b"jnc", C b"jc", N b"jn", Ge b"jge", L b"jl", Always b"jmp")
    };
}

/// The name of an instruction of two operands.
pub fn op2_name(op: Op2) -> &'static [u8]
    ensures name { result.now ≡ op2_name op }
    ensures len { length result.now ≤ 4 }
{
    two_operands!(name_of op)
}

/// The name of an instruction of one operand.
pub fn one_name(op: One) -> &'static [u8]
    ensures name { result.now ≡ one_name op }
    ensures len { length result.now ≤ 4 }
{
    one_operand!(name_of op)
}

/// The name of a jump.
pub fn jump_name(condition: Cond) -> &'static [u8]
    ensures name { result.now ≡ jump_name condition }
    ensures len { length result.now ≤ 3 }
{
    jumps!(name_of condition)
}

/// The instruction that a word in lower case names.
pub fn mnemonic_of(word: &[u8]) -> Option<Mnemonic>
    ensures { result ≡ mnemonic_of word.now }
{
    if let Some(op) = two_operand_of(word) {
        return Some(Mnemonic::Two(op));
    }
    if let Some(op) = one_operand_of(word) {
        return Some(Mnemonic::One(op));
    }
    if let Some(condition) = jump_of(word) {
        return Some(Mnemonic::Jump(condition));
    }
    match word {
        b"reti" => Some(Mnemonic::Reti),
        _ => Some(Mnemonic::Emulated(emulated_of(word)?)),
    }
}

fn two_operand_of(word: &[u8]) -> Option<Op2>
    ensures { result ≡ value_named two_operand_names word.now }
{
    two_operands!(value_named word)
}

fn one_operand_of(word: &[u8]) -> Option<One>
    ensures { result ≡ value_named one_operand_names word.now }
{
    one_operand!(value_named word)
}

fn jump_of(word: &[u8]) -> Option<Cond>
    ensures { result ≡ jump_of word.now }
{
    match word {
        b"jnz" => Some(Ne),
        b"jz" => Some(Eq),
        b"jlo" => Some(Nc),
        b"jhs" => Some(C),
        _ => jumps!(value_named word),
    }
}

fn emulated_of(word: &[u8]) -> Option<Emulated>
    ensures { result ≡ value_named emulated_names word.now }
{
    value_named!(word;
        Adc b"adc", Br b"br", Clr b"clr", Clrc b"clrc", Clrn b"clrn", Clrz b"clrz", Dadc b"dadc",
        Dec b"dec", Decd b"decd", Dint b"dint", Eint b"eint", Inc b"inc", Incd b"incd",
        Inv b"inv", Nop b"nop", Pop b"pop", Ret b"ret", Rla b"rla", Rlc b"rlc", Sbc b"sbc",
        Setc b"setc", Setn b"setn", Setz b"setz", Tst b"tst")
}
