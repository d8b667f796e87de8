ghost use Rattle.std.specs.Prelude.{◌≡◌, ◌↔◌, IsTrue, IsNone, IfOk, option_to_list};
ghost use Rattle.msp_decode.specs.{declared.{encode_fault.EncodeFault.EncodeFault, head.Head.TheVariants.One as OneHead}, Spelling.{is_legal, word_of}, Completion.{source_form, dest_form, head_part, source_words, dest_words, extension_words, words_of}, FollowingWords.following_words, EncodeFault.first_fault, Law.AreReadAs};

use crate::dest::Dest;
use crate::dest_form::DestForm;
use crate::encode_fault::EncodeFault;
use crate::field::{has_range, offset_number, op2_number, size_number};
use crate::following_words::FollowingWords;
use crate::head::Head;
use crate::instr::Instr;
use crate::one::One;
use crate::source::Source;
use crate::source_form::SourceForm;
use crate::words::Words;
use word_arith::Size;

fn source_form(source: Source) -> SourceForm
    ensures { result ≡ source_form source }
{
    match source {
        Source::Reg(register) => SourceForm::Register(register),
        Source::Indexed(register, _) => SourceForm::Indexed(register),
        Source::Indirect(register) => SourceForm::Indirect(register),
        Source::IndirectInc(register) => SourceForm::IndirectInc(register),
        Source::Immediate(_) => SourceForm::Immediate,
        Source::Constant(constant) => SourceForm::Constant(constant),
    }
}

fn dest_form(dest: Dest) -> DestForm
    ensures { result ≡ dest_form dest }
{
    match dest {
        Dest::Reg(register) => DestForm::Register(register),
        Dest::Indexed(register, _) => DestForm::Indexed(register),
    }
}

fn head_part(instr: &Instr) -> Head
    ensures { result ≡ head_part instr.now }
{
    match *instr {
        Instr::Two(op, size, source, dest) => {
            Head::Two(op, size, source_form(source), dest_form(dest))
        }
        Instr::One(op, size, source) => Head::One(op, size, source_form(source)),
        Instr::Reti => Head::Reti,
        Instr::Jump(cond, offset) => Head::Jump(cond, offset),
    }
}

fn source_word(source: Source) -> Option<u16>
    ensures { option_to_list result ≡ source_words source }
{
    match source {
        Source::Indexed(_, word) | Source::Immediate(word) => Some(word),
        Source::Reg(_) | Source::Indirect(_) | Source::IndirectInc(_) | Source::Constant(_) => None,
    }
}

fn dest_word(dest: Dest) -> Option<u16>
    ensures { option_to_list result ≡ dest_words dest }
{
    match dest {
        Dest::Reg(_) => None,
        Dest::Indexed(_, word) => Some(word),
    }
}

fn following_words_of(instr: &Instr) -> FollowingWords
    ensures { following_words result ≡ extension_words instr.now }
{
    match *instr {
        Instr::Two(_, _, source, dest) => FollowingWords::join(
            source_word(source),
            dest_word(dest),
        ),
        Instr::One(_, _, source) => FollowingWords::join(source_word(source), None),
        Instr::Reti | Instr::Jump(..) => FollowingWords::Nothing,
    }
}

fn one_fault(op: One, size: Size, source: SourceForm) -> Option<EncodeFault>
    ensures { result ≡ first_fault (OneHead op size source) }
{
    if !op.has_size(size) {
        Some(EncodeFault::NoByteForm)
    } else if op.writes_operand() && !source.takes_result() {
        Some(EncodeFault::NotWritable)
    } else if !source.has_form() {
        Some(EncodeFault::NoSuchForm)
    } else {
        None
    }
}

// The first of the faults, in the order of [`EncodeFault`].
fn first_fault(head: &Head) -> Option<EncodeFault>
    ensures value { result ≡ first_fault head.now }
    ensures legal { IsNone result → IsTrue (is_legal head.now) }
{
    match *head {
        Head::Two(_, _, source, _) if !source.has_form() => Some(EncodeFault::NoSuchForm),
        Head::One(op, size, source) => one_fault(op, size, source),
        Head::Jump(_, offset) if !has_range(offset) => Some(EncodeFault::OffsetRange),
        Head::Two(..) | Head::Reti | Head::Jump(..) => None,
    }
}

fn first_word(head: &Head) -> u16
    requires { IsTrue (is_legal head.now) }
    ensures { result ≡ word_of head.now }
{
    match *head {
        Head::Two(op, size, source, dest) => {
            let (mode, register) = source.fields();
            let (dest_mode, dest_register) = dest.fields();
            op2_number(op) * 0x1000
                + register * 0x100
                + dest_mode * 0x80
                + size_number(size) * 0x40
                + mode * 0x10
                + dest_register
        }
        Head::One(op, size, source) => {
            let (mode, register) = source.fields();
            0x1000 + op.number() * 0x80 + size_number(size) * 0x40 + mode * 0x10 + register
        }
        Head::Reti => 0x1300,
        Head::Jump(cond, offset) => 0x2000 + cond.number() * 0x400 + offset_number(offset),
    }
}

/// The words of an instruction, which are read as that instruction. The faults are tried in the
/// order of [`EncodeFault`].
pub fn encode(instr: &Instr) -> Result<Words, EncodeFault>
    ensures ok { IfOk result (λ words. words ≡ words_of instr.now) }
    ensures read { IfOk result (λ words. AreReadAs words instr.now) }
    ensures fault { (fault : EncodeFault)
        → (result ≡ Err fault) ↔ (first_fault (head_part instr.now) ≡ Some fault) }
{
    let head = head_part(instr);
    match first_fault(&head) {
        Some(fault) => Err(fault),
        None => Ok(Words::new(first_word(&head), following_words_of(instr))),
    }
}
