ghost use Rattle.std.specs.Prelude.{◌≡◌, ◌≤◌, ◌+◌, ◌*◌, IfOk, IsTrue, None, option_map};
ghost use Rattle.msp_decode.specs.{Completion.{head_part, source_form}, Spelling.has_form, EncodeFault.first_fault};
ghost use Rattle.part_definitions.specs.CpuRegister.{plus};
ghost use Rattle.asm_text.specs.declared.form.Form.TheVariants.{Two as TwoForm, One as OneForm, Jump as JumpForm};
ghost use Rattle.msp_asm.specs.{Value.{value, known_value, scope_in}, Instruction.{operands_in, takes_source, one_of, jump_of, form_size, instruction_of}, Operand.{expr_in, operand_words}};

use crate::number::address_of;
use crate::operand::{dest_of, expr_in, operand_words, source_of};
use crate::scope::Scope;
use asm_text::{DestRole, Form, Operand, SourceRole};
use msp_decode::{Cond, Dest, Instr, One, Reg, Source};
use text_scan::FaultKind;
use word_arith::{Op2, Size};

/// The operands of a statement in the order written.
#[derive(Clone, Copy)]
pub struct Operands<'s, 'a> {
    pub first: Option<&'s Operand<'a>>,
    pub second: Option<&'s Operand<'a>>,
}

impl<'s, 'a> Operands<'s, 'a> {
    ghost use Rattle.std.specs.Prelude.{◌≡◌, ◌≤◌, option_map, IfOk, IsTrue};
    ghost use Rattle.msp_decode.specs.{Completion.source_form, Spelling.has_form};
    ghost use Rattle.msp_asm.specs.Instruction.{written_source, written_dest, source_words, dest_words, source_at, dest_at, form_size, operands_in};

    // The written operand that is the source.
    fn source(self, role: SourceRole) -> Option<&'s Operand<'a>>
        ensures { option_map (λ o. o.now) result ≡ written_source role (operands_in self.entry) }
    {
        match role {
            SourceRole::First => self.first,
            SourceRole::Constant(_) | SourceRole::StackTop => None,
        }
    }

    // The written operand that is the destination.
    fn dest(self, role: DestRole) -> Option<&'s Operand<'a>>
        ensures { option_map (λ o. o.now) result ≡ written_dest role (operands_in self.entry) }
    {
        match role {
            DestRole::First => self.first,
            DestRole::Second => self.second,
            DestRole::Register(_) => None,
        }
    }

    // How many extension words the source has.
    fn source_words(self, role: SourceRole, size: Size) -> u16
        ensures value { result ≡ source_words role size (operands_in self.entry) }
        ensures most { result ≤ 1 }
    {
        operand_words(size, self.source(role))
    }

    // How many extension words the destination has.
    fn dest_words(self, role: DestRole, size: Size) -> u16
        ensures value { result ≡ dest_words role size (operands_in self.entry) }
        ensures most { result ≤ 1 }
    {
        operand_words(size, self.dest(role))
    }

    // The source, where its extension word is at this address and its expression has this value.
    fn source_at(
        self,
        role: SourceRole,
        size: Size,
        at: u16,
        value: i128,
    ) -> Result<Source, FaultKind>
        ensures value { result ≡ source_at role size at (operands_in self.entry) value }
        ensures form { IfOk result (λ source. IsTrue (has_form (source_form source))) }
    {
        match role {
            SourceRole::First => source_of(size, at, self.first, value),
            SourceRole::Constant(constant) => Ok(Source::Constant(constant)),
            SourceRole::StackTop => Ok(Source::IndirectInc(Reg::R1)),
        }
    }

    // The destination, likewise.
    fn dest_at(self, role: DestRole, at: u16, value: i128) -> Result<Dest, FaultKind>
        ensures { result ≡ dest_at role at (operands_in self.entry) value }
    {
        match role {
            DestRole::First => dest_of(at, self.first, value),
            DestRole::Second => dest_of(at, self.second, value),
            DestRole::Register(register) => Ok(Dest::Reg(register)),
        }
    }
}

/// How many bytes the instruction of a form has.
pub fn form_size(form: Form, size: Size, operands: Operands<'_, '_>) -> u16
    ensures value { result ≡ form_size form size (operands_in operands.entry) }
    ensures most { result ≤ 6 }
{
    match form {
        Form::Two(_, source, dest) => {
            2 * (1 + operands.source_words(source, size) + operands.dest_words(dest, size))
        }
        Form::One(_) => 2 * (1 + operand_words(size, operands.first)),
        Form::Reti | Form::Jump(_) => 2,
    }
}

// Whether there is an instruction of one operand with this source.
fn takes_source(op: One, size: Size, source: Source) -> bool
    ensures { result ≡ takes_source op size source }
{
    let is_value = matches!(source, Source::Immediate(_) | Source::Constant(_));
    op.has_size(size) && !(op.writes_operand() && is_value)
}

// The instruction of one operand.
fn one_of(op: One, size: Size, source: Source) -> Result<Instr, FaultKind>
    requires { IsTrue (has_form (source_form source)) }
    ensures value { result ≡ one_of op size source }
    ensures written { IfOk result (λ instr. first_fault (head_part instr) ≡ None) }
{
    if takes_source(op, size, source) {
        Ok(Instr::One(op, size, source))
    } else {
        Err(FaultKind::Operand)
    }
}

// A jump at an address to a target.
fn jump_of(cond: Cond, here: u32, target: u16) -> Result<Instr, FaultKind>
    ensures value { result ≡ jump_of cond here target }
    ensures written { IfOk result (λ instr. first_fault (head_part instr) ≡ None) }
{
    let distance = i64::from(target) - (i64::from(here) + 2);
    match distance / 2 {
        offset @ -512..=511 if target % 2 == 0 => Ok(Instr::Jump(cond, offset as i16)),
        _ => Err(FaultKind::Range),
    }
}

impl Scope<'_, '_> {
    // The value of an operand's expression, 0 where it has none.
    fn operand_value(&self, operand: Option<&Operand<'_>>) -> Result<i128, FaultKind>
        ensures { result
            ≡ known_value (value (scope_in self.now)
            (expr_in (option_map (λ o. o.now) operand.entry))) }
    {
        match expr_in(operand) {
            Some(expr) => self.defined_value(expr),
            None => Ok(0),
        }
    }

    // The address so many bytes after the statement's first.
    fn address_after(&self, count: u16) -> u16
        ensures { result ≡ plus self.now.here count }
    {
        ((self.here % 0x1_0000) as u16).wrapping_add(count)
    }

    fn two(
        &self,
        op: Op2,
        source: SourceRole,
        dest: DestRole,
        size: Size,
        operands: Operands<'_, '_>,
    ) -> Result<Instr, FaultKind>
        ensures value { result
            ≡ instruction_of (scope_in self.now) (TwoForm op source dest) size
            (operands_in operands.entry) }
        ensures written { IfOk result (λ instr. first_fault (head_part instr) ≡ None) }
    {
        let first = self.operand_value(operands.source(source))?;
        let second = self.operand_value(operands.dest(dest))?;
        let words_before = operands.source_words(source, size);
        let from = operands.source_at(source, size, self.address_after(2), first)?;
        let to = operands.dest_at(dest, self.address_after(2 + 2 * words_before), second)?;
        Ok(Instr::Two(op, size, from, to))
    }

    fn one(&self, op: One, size: Size, operands: Operands<'_, '_>) -> Result<Instr, FaultKind>
        ensures value { result
            ≡ instruction_of (scope_in self.now) (OneForm op) size (operands_in operands.entry) }
        ensures written { IfOk result (λ instr. first_fault (head_part instr) ≡ None) }
    {
        let value = self.operand_value(operands.first)?;
        let source = source_of(size, self.address_after(2), operands.first, value)?;
        one_of(op, size, source)
    }

    fn jump(&self, cond: Cond, size: Size, operands: Operands<'_, '_>) -> Result<Instr, FaultKind>
        ensures value { result
            ≡ instruction_of (scope_in self.now) (JumpForm cond) size (operands_in operands.entry) }
        ensures written { IfOk result (λ instr. first_fault (head_part instr) ≡ None) }
    {
        let value = self.operand_value(operands.first)?;
        jump_of(cond, self.here, address_of(value)?)
    }

    /// The instruction of a form, with the first fault of its operands: `Undefined` before `Range`.
    pub fn instruction(
        &self,
        form: Form,
        size: Size,
        operands: Operands<'_, '_>,
    ) -> Result<Instr, FaultKind>
        ensures value { result
            ≡ instruction_of (scope_in self.now) form size (operands_in operands.entry) }
        ensures written { IfOk result (λ instr. first_fault (head_part instr) ≡ None) }
    {
        match form {
            Form::Two(op, source, dest) => self.two(op, source, dest, size, operands),
            Form::One(op) => self.one(op, size, operands),
            Form::Reti => Ok(Instr::Reti),
            Form::Jump(cond) => self.jump(cond, size, operands),
        }
    }
}
