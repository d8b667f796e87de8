ghost use Rattle.std.specs.Prelude.{◌≡◌};
ghost use Rattle.asm_text.specs.{Form.emulated_form, declared.form.{Form.TheVariants.Two, SourceRole.TheVariants.Constant, DestRole.TheVariants.{First as OnlyDest, Register}}};
ghost use Rattle.msp_decode.specs.declared.reg.Reg.TheVariants.{R2};

use crate::emulated::Emulated;
use crate::mnemonic::Mnemonic;
use crate::operand_form::OperandForm;
use msp_decode::{Cond, Gen, One, Reg};
use word_arith::{Op2, Size};

/// Where the source of an instruction is from.
#[derive(Clone, Copy, Debug, PartialEq, Eq)]
pub enum SourceRole {
    /// The operand that is written first.
    First,
    Constant(Gen),
    /// The word at the top of the stack, which is taken off it.
    StackTop,
}

/// Where the destination of an instruction is from.
#[derive(Clone, Copy, Debug, PartialEq, Eq)]
pub enum DestRole {
    /// The operand that is written first.
    First,
    /// The operand that is written second.
    Second,
    Register(Reg),
}

/// An instruction of the processor, and where its operands are from.
#[derive(Clone, Copy, Debug, PartialEq, Eq)]
pub enum Form {
    Two(Op2, SourceRole, DestRole),
    /// Of the operand that is written first.
    One(One),
    Reti,
    /// To the operand that is written first.
    Jump(Cond),
}

// An instruction of a constant and the written operand.
fn with_constant(op: Op2, constant: Gen) -> Form
    ensures { result ≡ Two op (Constant constant) OnlyDest }
{
    Form::Two(op, SourceRole::Constant(constant), DestRole::First)
}

// An instruction that sets or clears bits of the status register.
fn on_status(op: Op2, bits: Gen) -> Form
    ensures { result ≡ Two op (Constant bits) (Register R2) }
{
    Form::Two(op, SourceRole::Constant(bits), DestRole::Register(Reg::R2))
}

// The instruction that an emulated one stands for.
fn emulated_form(emulated: Emulated) -> Form
    ensures { result ≡ emulated_form emulated }
{
    match emulated {
        Emulated::Adc => with_constant(Op2::Addc, Gen::Zero),
        Emulated::Br => Form::Two(Op2::Mov, SourceRole::First, DestRole::Register(Reg::R0)),
        Emulated::Clr => with_constant(Op2::Mov, Gen::Zero),
        Emulated::Clrc => on_status(Op2::Bic, Gen::One),
        Emulated::Clrn => on_status(Op2::Bic, Gen::Four),
        Emulated::Clrz => on_status(Op2::Bic, Gen::Two),
        Emulated::Dadc => with_constant(Op2::Dadd, Gen::Zero),
        Emulated::Dec => with_constant(Op2::Sub, Gen::One),
        Emulated::Decd => with_constant(Op2::Sub, Gen::Two),
        Emulated::Dint => on_status(Op2::Bic, Gen::Eight),
        Emulated::Eint => on_status(Op2::Bis, Gen::Eight),
        Emulated::Inc => with_constant(Op2::Add, Gen::One),
        Emulated::Incd => with_constant(Op2::Add, Gen::Two),
        Emulated::Inv => with_constant(Op2::Xor, Gen::MinusOne),
        Emulated::Nop => Form::Two(
            Op2::Mov,
            SourceRole::Constant(Gen::Zero),
            DestRole::Register(Reg::R3),
        ),
        Emulated::Pop => Form::Two(Op2::Mov, SourceRole::StackTop, DestRole::First),
        Emulated::Ret => Form::Two(Op2::Mov, SourceRole::StackTop, DestRole::Register(Reg::R0)),
        Emulated::Rla => Form::Two(Op2::Add, SourceRole::First, DestRole::First),
        Emulated::Rlc => Form::Two(Op2::Addc, SourceRole::First, DestRole::First),
        Emulated::Sbc => with_constant(Op2::Subc, Gen::Zero),
        Emulated::Setc => on_status(Op2::Bis, Gen::One),
        Emulated::Setn => on_status(Op2::Bis, Gen::Four),
        Emulated::Setz => on_status(Op2::Bis, Gen::Two),
        Emulated::Tst => with_constant(Op2::Cmp, Gen::Zero),
    }
}

impl Form {
    ghost use Rattle.std.specs.Prelude.{◌≡◌};
    ghost use Rattle.asm_text.specs.Form.{form_of, has_byte_form, operand_form};

    /// The form of a mnemonic. That of an emulated instruction is the processor's that it stands
    /// for (SLAU049, the chapter on the 16-bit RISC CPU).
    pub fn of(mnemonic: Mnemonic) -> Form
        ensures { result ≡ form_of mnemonic }
    {
        match mnemonic {
            Mnemonic::Two(op) => Form::Two(op, SourceRole::First, DestRole::Second),
            Mnemonic::One(op) => Form::One(op),
            Mnemonic::Reti => Form::Reti,
            Mnemonic::Jump(condition) => Form::Jump(condition),
            Mnemonic::Emulated(emulated) => emulated_form(emulated),
        }
    }

    // Whether there is an instruction of bytes.
    pub(crate) fn has_byte_form(self) -> bool
        ensures { result ≡ has_byte_form self }
    {
        match self {
            Form::Two(_, _, dest) => !matches!(dest, DestRole::Register(_)),
            Form::One(op) => op.has_size(Size::Byte),
            Form::Reti | Form::Jump(_) => false,
        }
    }

    // The operands that are written.
    pub(crate) fn operand_form(self) -> OperandForm
        ensures { result ≡ operand_form self }
    {
        match self {
            Form::Two(_, SourceRole::First, DestRole::Second) => OperandForm::SourceAndDestination,
            Form::Two(_, SourceRole::First, DestRole::First) => OperandForm::DestinationTwice,
            Form::Two(_, SourceRole::First, DestRole::Register(_)) => OperandForm::Source,
            Form::Two(_, _, DestRole::Register(_)) => OperandForm::Nothing,
            Form::Two(..) => OperandForm::Destination,
            Form::One(op) if op.writes_operand() => OperandForm::InPlace,
            Form::One(_) => OperandForm::Source,
            Form::Reti => OperandForm::Nothing,
            Form::Jump(_) => OperandForm::Target,
        }
    }
}
