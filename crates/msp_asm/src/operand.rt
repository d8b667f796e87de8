ghost use Rattle.std.specs.{Prelude.{◌≡◌, ◌≤◌, [], pos, IfOk, IsTrue, option_map}, Option.option_map_or};
ghost use Rattle.msp_decode.specs.{Completion.source_form, Spelling.has_form};
ghost use Rattle.msp_asm.specs.{Value.with_sign, Operand.{expr_in, constant_of, all_ones, generated_constant, operand_words, immediate, source_of, dest_of}};

use crate::number::{address_of, byte_immediate_of, word_of};
use asm_text::{Expr, Operand, Term};
use msp_decode::{Dest, Gen, Reg, Source};
use text_scan::FaultKind;
use word_arith::Size;

/// The expression of an operand.
pub fn expr_in<'s, 'a>(operand: Option<&'s Operand<'a>>) -> Option<&'s Expr<'a>>
    ensures { option_map_or (λ expr. expr.now) result []
        ≡ expr_in (option_map (λ o. o.now) operand.entry) }
{
    match operand? {
        Operand::Imm(expr)
        | Operand::Abs(expr)
        | Operand::Indexed(expr, _)
        | Operand::Symbolic(expr) => Some(expr),
        Operand::Reg(_) | Operand::Indirect(_) | Operand::IndirectInc(_) => None,
    }
}

// The constant of this number that the constant generators give.
fn constant_of(size: Size, is_negative: bool, number: u16) -> Option<Gen>
    ensures { result ≡ constant_of size (with_sign is_negative (pos number)) }
{
    match (is_negative, number) {
        (_, 0) => Some(Gen::Zero),
        (true, 1) => Some(Gen::MinusOne),
        (true, _) => None,
        (false, 1) => Some(Gen::One),
        (false, 2) => Some(Gen::Two),
        (false, 4) => Some(Gen::Four),
        (false, 8) => Some(Gen::Eight),
        (false, _) if number == all_ones(size) => Some(Gen::MinusOne),
        (false, _) => None,
    }
}

fn all_ones(size: Size) -> u16
    ensures { result ≡ all_ones size }
{
    match size {
        Size::Byte => 0xFF,
        Size::Word => 0xFFFF,
    }
}

// The constant of an immediate, which only a lone number has.
fn generated_constant(size: Size, expr: &Expr<'_>) -> Option<Gen>
    ensures { result ≡ generated_constant size expr.now }
{
    let [signed] = expr.as_slice() else {
        return None;
    };
    match signed {
        (is_subtracted, Term::Number(number)) => constant_of(size, *is_subtracted, *number),
        _ => None,
    }
}

/// How many extension words an operand has.
pub fn operand_words(size: Size, operand: Option<&Operand<'_>>) -> u16
    ensures value { result ≡ operand_words size (option_map (λ o. o.now) operand.entry) }
    ensures most { result ≤ 1 }
{
    match operand {
        Some(Operand::Imm(expr)) if generated_constant(size, expr).is_some() => 0,
        Some(Operand::Imm(_) | Operand::Abs(_) | Operand::Indexed(..) | Operand::Symbolic(_)) => 1,
        _ => 0,
    }
}

// An immediate, or the constant in its place.
fn immediate(size: Size, expr: &Expr<'_>, value: i128) -> Result<Source, FaultKind>
    ensures { result ≡ immediate size (generated_constant size expr.now) value }
{
    if let Some(constant) = generated_constant(size, expr) {
        return Ok(Source::Constant(constant));
    }
    let word = match size {
        Size::Byte => byte_immediate_of(value)?,
        Size::Word => word_of(value)?,
    };
    Ok(Source::Immediate(word))
}

/// An operand as a source, where its extension word is at this address and its expression has this
/// value.
pub fn source_of(
    size: Size,
    at: u16,
    operand: Option<&Operand<'_>>,
    value: i128,
) -> Result<Source, FaultKind>
    ensures value { result ≡ source_of size at (option_map (λ o. o.now) operand.entry) value }
    ensures form { IfOk result (λ source. IsTrue (has_form (source_form source))) }
{
    match operand {
        Some(Operand::Reg(Reg::R3)) => Ok(Source::Constant(Gen::Zero)),
        Some(Operand::Reg(register)) => Ok(Source::Reg(*register)),
        Some(Operand::Imm(expr)) => immediate(size, expr, value),
        Some(Operand::Abs(_)) => Ok(Source::Indexed(Reg::R2, address_of(value)?)),
        Some(Operand::Symbolic(_)) => {
            Ok(Source::Indexed(Reg::R0, address_of(value)?.wrapping_sub(at)))
        }
        None
        | Some(Operand::Indexed(_, Reg::R3))
        | Some(Operand::Indirect(Reg::R2 | Reg::R3))
        | Some(Operand::IndirectInc(Reg::R0 | Reg::R2 | Reg::R3)) => Err(FaultKind::Operand),
        Some(Operand::Indexed(_, register)) => Ok(Source::Indexed(*register, word_of(value)?)),
        Some(Operand::Indirect(register)) => Ok(Source::Indirect(*register)),
        Some(Operand::IndirectInc(register)) => Ok(Source::IndirectInc(*register)),
    }
}

/// An operand as a destination, likewise.
pub fn dest_of(at: u16, operand: Option<&Operand<'_>>, value: i128) -> Result<Dest, FaultKind>
    ensures { result ≡ dest_of at (option_map (λ o. o.now) operand.entry) value }
{
    match operand {
        Some(Operand::Reg(register)) => Ok(Dest::Reg(*register)),
        Some(Operand::Abs(_)) => Ok(Dest::Indexed(Reg::R2, address_of(value)?)),
        Some(Operand::Indexed(_, register)) => Ok(Dest::Indexed(*register, word_of(value)?)),
        Some(Operand::Symbolic(_)) => {
            Ok(Dest::Indexed(Reg::R0, address_of(value)?.wrapping_sub(at)))
        }
        _ => Err(FaultKind::Operand),
    }
}
