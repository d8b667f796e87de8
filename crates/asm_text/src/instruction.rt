ghost use Rattle.std.specs.{Prelude.◌≡◌, Option.option_copied};
ghost use Rattle.asm_text.specs.Statement.{is_base, is_source, is_destination, is_doubled, is_modified, is_target, fits, instruction_of};

use crate::body::Body;
use crate::form::Form;
use crate::mnemonic::Mnemonic;
use crate::operand::Operand;
use crate::operand_form::OperandForm;
use crate::operands::Operands;
use msp_decode::{Reg, SourceForm};
use text_scan::FaultKind;
use word_arith::Size;

/// An instruction with its operands; `Operand` where it does not take these.
pub fn instruction_of<'a>(
    mnemonic: Mnemonic,
    size: Size,
    operands: Operands<'a>,
) -> Result<Body<'a>, FaultKind>
    ensures { result ≡ instruction_of mnemonic size operands.entry }
{
    let (first, second) = operands.into_two()?;
    let form = Form::of(mnemonic).operand_form();
    if !fits(form, first.as_ref(), second.as_ref()) {
        return Err(FaultKind::Operand);
    }
    Ok(Body::Instr(mnemonic, size, first, second))
}

fn fits(form: OperandForm, first: Option<&Operand<'_>>, second: Option<&Operand<'_>>) -> bool
    ensures { result ≡ fits form (option_copied first.entry) (option_copied second.entry) }
{
    match (form, first, second) {
        (OperandForm::SourceAndDestination, Some(source), Some(destination)) => {
            is_source(source) && is_destination(destination)
        }
        (OperandForm::Source, Some(operand), None) => is_source(operand),
        (OperandForm::Destination, Some(operand), None) => is_destination(operand),
        (OperandForm::InPlace, Some(operand), None) => is_modified(operand),
        (OperandForm::DestinationTwice, Some(operand), None) => is_doubled(operand),
        (OperandForm::Target, Some(operand), None) => is_target(operand),
        (OperandForm::Nothing, None, None) => true,
        _ => false,
    }
}

// Whether a source `E(Rn)` may be written with a register.
fn is_base(register: Reg) -> bool
    ensures { result ≡ is_base register }
{
    !matches!(register, Reg::R2 | Reg::R3)
}

fn is_source(operand: &Operand<'_>) -> bool
    ensures { result ≡ is_source operand.now }
{
    match operand {
        Operand::Indexed(_, register) => is_base(*register),
        Operand::Indirect(register) => SourceForm::Indirect(*register).has_form(),
        Operand::IndirectInc(register) => SourceForm::IndirectInc(*register).has_form(),
        _ => true,
    }
}

fn is_destination(operand: &Operand<'_>) -> bool
    ensures { result ≡ is_destination operand.now }
{
    match operand {
        Operand::Reg(_) | Operand::Abs(_) | Operand::Symbolic(_) => true,
        Operand::Indexed(_, register) => *register != Reg::R2,
        _ => false,
    }
}

// A destination that is read as a source too.
fn is_doubled(operand: &Operand<'_>) -> bool
    ensures { result ≡ is_doubled operand.now }
{
    match operand {
        Operand::Indexed(_, register) => is_base(*register),
        _ => is_destination(operand),
    }
}

fn is_modified(operand: &Operand<'_>) -> bool
    ensures { result ≡ is_modified operand.now }
{
    match operand {
        Operand::Reg(register) => SourceForm::Register(*register).has_form(),
        Operand::Imm(_) => false,
        _ => is_source(operand),
    }
}

fn is_target(operand: &Operand<'_>) -> bool
    ensures { result ≡ is_target operand.now }
{
    matches!(operand, Operand::Symbolic(_))
}
