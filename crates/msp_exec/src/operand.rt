ghost use Rattle.std.specs.Prelude.{◌≡◌};
ghost use Rattle.part_definitions.specs.Operand.{constant_word, index_base, with_index, increment, after_increment, destination_in};

use crate::register::{operand_in, pass_word, set_register, word_in};
use msp_decode::{DestForm, Gen, Reg};
use part_definitions::WorkingState;
use word_arith::Size;

/// What the constant generators give.
pub fn constant_word(constant: Gen) -> u16
    ensures { result ≡ constant_word constant }
{
    match constant {
        Gen::Zero => 0,
        Gen::One => 1,
        Gen::Two => 2,
        Gen::Four => 4,
        Gen::Eight => 8,
        Gen::MinusOne => 0xFFFF,
    }
}

// What an index is added to.
fn index_base(regs: &[u16; 16], register: Reg) -> u16
    ensures { result ≡ index_base regs.now register }
{
    match register {
        Reg::R2 => 0,
        _ => word_in(regs, register),
    }
}

/// An index was fetched: with its register it gives the place.
pub fn add_index(work: &mut WorkingState, register: Reg, index: u16)
    ensures { work.new ≡ with_index register index work.old }
{
    work.place = index_base(&work.regs, register).wrapping_add(index);
    pass_word(&mut work.regs);
}

fn increment(size: Size, register: Reg) -> u16
    ensures { result ≡ increment size register }
{
    match (size, register) {
        (Size::Word, _) | (Size::Byte, Reg::R1) => 2,
        (Size::Byte, _) => 1,
    }
}

pub fn add_increment(regs: &mut [u16; 16], size: Size, register: Reg)
    ensures { regs.new ≡ after_increment size register regs.old }
{
    let sum = word_in(regs, register).wrapping_add(increment(size, register));
    set_register(regs, register, sum);
}

/// The destination.
pub fn destination_in(size: Size, form: DestForm, work: &WorkingState) -> u16
    ensures { result ≡ destination_in size form work.now }
{
    match form {
        DestForm::Register(register) => operand_in(size, &work.regs, register),
        DestForm::Indexed(_) => work.destination,
    }
}
