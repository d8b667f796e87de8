ghost use Rattle.std.specs.Prelude.{◌≡◌, ℕ, true};
ghost use Rattle.word_arith.specs.{Op2.alu_result, declared.{flags.Flags.Flags, size.Size.Size}};
ghost use Rattle.part_definitions.specs.{CpuAccess.accesses_of, Operand.{size_of, state_at_start}, Instruction.{result_of, after_value, after_result}};
ghost use Rattle.msp_exec.specs.{Order.{after_source, after_index, after_read, accesses_after, accesses_from}, TwoOperands.{result_of_two, registers_after_two}};

use crate::operand::{add_increment, add_index, constant_word, destination_in};
use crate::outcome::{jump, leave_number, leave_one, operand_outcome};
use crate::register::{
    flags_in, keep_flags, operand_in, pass_word, pop_pc, pop_sr, push, set_flags, word_in,
};
use msp_decode::{DestForm, Head, One, SourceForm};
use part_definitions::{CpuAccess, WorkingState};
use word_arith::{Op2, Size, alu};

/// B/W of an instruction; RETI and jumps are of words.
pub fn size_of(head: &Head) -> Size
    ensures { result ≡ size_of head.now }
{
    match *head {
        Head::Two(_, size, _, _) | Head::One(_, size, _) => size,
        Head::Reti | Head::Jump(..) => Size::Word,
    }
}

// The next access once the source is known.
#[inline(always)]
fn access_after_source(head: &Head) -> Option<CpuAccess>
    ensures { accesses_from head.now result ≡ after_source head.now }
{
    match *head {
        Head::Two(_, _, _, DestForm::Indexed(register)) => {
            Some(CpuAccess::FetchDestinationIndex(register))
        }
        Head::One(One::Push, _, _) => Some(CpuAccess::PushSource),
        Head::One(One::Call, _, _) => Some(CpuAccess::PushPc),
        Head::One(
            _,
            _,
            SourceForm::Indexed(_) | SourceForm::Indirect(_) | SourceForm::IndirectInc(_),
        ) => Some(CpuAccess::WriteResult),
        Head::Two(..) | Head::One(..) | Head::Reti | Head::Jump(..) => None,
    }
}

// The next access once the place of the destination is known.
fn access_after_index(head: &Head) -> Option<CpuAccess>
    ensures { accesses_from head.now result ≡ after_index head.now }
{
    match *head {
        Head::Two(Op2::Mov, ..) => Some(CpuAccess::WriteResult),
        Head::Two(..) => Some(CpuAccess::ReadDestination),
        Head::One(..) | Head::Reti | Head::Jump(..) => None,
    }
}

// The next access once the destination was read.
fn access_after_read(head: &Head) -> Option<CpuAccess>
    ensures { accesses_from head.now result ≡ after_read head.now }
{
    match *head {
        Head::Two(Op2::Cmp | Op2::Bit, ..) => None,
        Head::Two(..) => Some(CpuAccess::WriteResult),
        Head::One(..) | Head::Reti | Head::Jump(..) => None,
    }
}

/// The opcode was fetched; the answer is the first access after it.
#[inline(always)]
pub fn start(work: &mut WorkingState, head: &Head) -> Option<CpuAccess>
    ensures working { work.new ≡ state_at_start head.now work.old.regs }
    ensures next { accesses_from head.now result ≡ accesses_of head.now }
{
    pass_word(&mut work.regs);
    work.source = 0;
    work.place = 0;
    work.destination = 0;
    match *head {
        Head::Two(_, size, source, _) | Head::One(_, size, source) => match source {
            SourceForm::Register(register) => {
                work.source = operand_in(size, &work.regs, register);
                access_after_source(head)
            }
            SourceForm::Constant(constant) => {
                work.source = size.low_part(constant_word(constant));
                access_after_source(head)
            }
            SourceForm::Indexed(register) => Some(CpuAccess::FetchSourceIndex(register)),
            SourceForm::Indirect(register) => {
                work.place = word_in(&work.regs, register);
                Some(CpuAccess::ReadSource)
            }
            SourceForm::IndirectInc(register) => {
                work.place = word_in(&work.regs, register);
                Some(CpuAccess::ReadIncrementing(register))
            }
            SourceForm::Immediate => Some(CpuAccess::FetchImmediate),
        },
        Head::Reti => Some(CpuAccess::PopSr),
        Head::Jump(..) => None,
    }
}

// The source is known; the answer is the next access.
#[inline(always)]
fn learn_source(work: &mut WorkingState, head: &Head, source: u16) -> Option<CpuAccess>
    ensures working { work.new ≡ record work.old { source = source } }
    ensures next { accesses_from head.now result ≡ after_source head.now }
{
    work.source = source;
    access_after_source(head)
}

/// An access was made and gave this value, 0 for a write; the answer is the access after it.
#[inline(always)]
pub fn learn(
    work: &mut WorkingState,
    head: &Head,
    access: CpuAccess,
    value: u16,
) -> Option<CpuAccess>
    ensures working { work.new ≡ after_value head.now access value work.old }
    ensures next { accesses_from head.now result ≡ accesses_after head.now access }
{
    match access {
        CpuAccess::FetchImmediate => {
            pass_word(&mut work.regs);
            learn_source(work, head, size_of(head).low_part(value))
        }
        CpuAccess::FetchSourceIndex(register) => {
            add_index(work, register, value);
            Some(CpuAccess::ReadSource)
        }
        CpuAccess::ReadSource => learn_source(work, head, value),
        CpuAccess::ReadIncrementing(register) => {
            add_increment(&mut work.regs, size_of(head), register);
            learn_source(work, head, value)
        }
        CpuAccess::FetchDestinationIndex(register) => {
            add_index(work, register, value);
            access_after_index(head)
        }
        CpuAccess::ReadDestination => {
            work.destination = value;
            access_after_read(head)
        }
        CpuAccess::PushSource | CpuAccess::PushPc => {
            push(&mut work.regs);
            None
        }
        CpuAccess::PopSr => {
            pop_sr(&mut work.regs, value);
            Some(CpuAccess::PopPc)
        }
        CpuAccess::PopPc => {
            pop_pc(&mut work.regs, value);
            None
        }
        CpuAccess::WriteResult => None,
    }
}

// Whether an operation leaves the flags as they were.
#[tactic(auto, unfolding(word_arith::specs::Op2::alu_result))]
fn keeps_flags(op: Op2) -> bool
    ensures { (size : Size) (source destination : ℕ) (flags : Flags)
        → result ≡ true → (alu_result op size source destination flags).1 ≡ flags }
{
    matches!(op, Op2::Mov | Op2::Bic | Op2::Bis)
}

// Both operands are known. The answer is the result.
#[inline(never)]
fn end_two(work: &mut WorkingState, op: Op2, size: Size, form: DestForm) -> u16
    ensures number { result ≡ (result_of_two op size form work.old).0 }
    ensures after { work.new
        ≡ record work.old { regs = registers_after_two op size form work.old } }
{
    let destination = destination_in(size, form, work);
    let flags = flags_in(&work.regs);
    let (number, flags) = alu(op, size, work.source, destination, flags);
    if keeps_flags(op) {
        keep_flags(&mut work.regs);
    } else {
        set_flags(&mut work.regs, flags);
    }
    leave_number(&mut work.regs, op, form, number);
    number
}

/// All operands are known: leaves the registers as they are after the instruction. The answer is
/// the result, 0 of RETI and of jumps.
#[inline(always)]
pub fn end(work: &mut WorkingState, head: &Head) -> u16
    ensures number { result ≡ (result_of head.now work.old).0 }
    ensures after { work.new
        ≡ record work.old {
          regs = after_result head.now (result_of head.now work.old) work.old.regs;
        } }
{
    match *head {
        Head::Two(op, size, _, form) => end_two(work, op, size, form),
        Head::One(op, size, form) => {
            let (number, flags) = operand_outcome(op, size, work.source, flags_in(&work.regs));
            leave_one(&mut work.regs, op, form, number, flags);
            number
        }
        Head::Reti => 0,
        Head::Jump(condition, offset) => {
            jump(&mut work.regs, condition, offset);
            0
        }
    }
}

/// Likewise, for the callers that share its code.
#[inline(never)]
pub fn end_apart(work: &mut WorkingState, head: &Head) -> u16
    ensures number { result ≡ (result_of head.now work.old).0 }
    ensures after { work.new
        ≡ record work.old {
          regs = after_result head.now (result_of head.now work.old) work.old.regs;
        } }
{
    end(work, head)
}
