ghost use Rattle.std.specs.Prelude.{◌≡◌, ℕ, List};
ghost use Rattle.word_arith.specs.declared.flags.Flags.{Flags};
ghost use Rattle.part_definitions.specs.{CpuRegister.with_flags, Instruction.{operand_result, after_two, after_one, is_taken, jump_target, after_jump}};

use crate::register::{flags_in, pc_in, set_flags, set_pc, set_register};
use msp_decode::{Cond, DestForm, One, SourceForm};
use word_arith::{Flags, Op1, Op2, Size, shift};

/// Result and flags of one operand; PUSH and CALL have the operand as it is.
pub fn operand_outcome(op: One, size: Size, operand: u16, flags: Flags) -> (u16, Flags)
    ensures { result ≡ operand_result op size operand flags }
{
    match op {
        One::Rrc => shift(Op1::Rrc, size, operand, flags),
        One::Swpb => shift(Op1::Swpb, size, operand, flags),
        One::Rra => shift(Op1::Rra, size, operand, flags),
        One::Sxt => shift(Op1::Sxt, size, operand, flags),
        One::Push | One::Call => (operand, flags),
    }
}

/// Leaves the result of two operands, once the flags are left; CMP and BIT have none.
#[inline(always)]
pub fn leave_number(regs: &mut [u16; 16], op: Op2, form: DestForm, number: u16)
    ensures { (flags : Flags) (before : List ℕ)
        → regs.old ≡ with_flags before flags
        → regs.new ≡ after_two op form (number, flags) before }
{
    match (op, form) {
        (Op2::Cmp | Op2::Bit, _) | (_, DestForm::Indexed(_)) => {}
        (_, DestForm::Register(register)) => set_register(regs, register, number),
    }
}

/// Leaves flags and result of one operand; PUSH leaves nothing, and CALL the program counter.
pub fn leave_one(regs: &mut [u16; 16], op: One, form: SourceForm, number: u16, flags: Flags)
    ensures { regs.new ≡ after_one op form (number, flags) regs.old }
{
    match op {
        One::Push => {}
        One::Call => set_pc(regs, number),
        One::Rrc | One::Swpb | One::Rra | One::Sxt => {
            set_flags(regs, flags);
            if let SourceForm::Register(register) = form {
                set_register(regs, register, number);
            }
        }
    }
}

// Whether a jump is taken with these flags.
fn is_taken(condition: Cond, flags: Flags) -> bool
    ensures { result ≡ is_taken condition flags }
{
    match condition {
        Cond::Ne => !flags.z,
        Cond::Eq => flags.z,
        Cond::Nc => !flags.c,
        Cond::C => flags.c,
        Cond::N => flags.n,
        Cond::Ge => flags.n == flags.v,
        Cond::L => flags.n != flags.v,
        Cond::Always => true,
    }
}

// Where a jump goes from the address after it; the offset counts words.
fn jump_target(pc: u16, offset: i16) -> u16
    ensures { result ≡ jump_target pc offset }
{
    let words = offset.cast_unsigned();
    pc.wrapping_add(words).wrapping_add(words)
}

#[inline(always)]
pub fn jump(regs: &mut [u16; 16], condition: Cond, offset: i16)
    ensures { regs.new ≡ after_jump condition offset regs.old }
{
    if is_taken(condition, flags_in(regs)) {
        set_pc(regs, jump_target(pc_in(regs), offset));
    }
}
