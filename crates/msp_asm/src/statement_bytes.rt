ghost use Rattle.std.specs.{Prelude.{◌≡◌, ◌++◌, OnOk, None}, List.flat_map};
ghost use Rattle.msp_decode.specs.{Completion.{head_part, words_of}, EncodeFault.first_fault};
ghost use Rattle.text_scan.specs.Reader.{ReadsWord};
ghost use Rattle.msp_asm.specs.{Statement.{size_of, is_of_words, word_bytes, value_bytes, all_bytes}, StatementBytes.AddsBytes};

use crate::bytes_law::named_instructions_are_read;
use crate::instruction::{Operands, form_size};
use crate::number::{byte_of, word_of};
use crate::scope::Scope;
use asm_text::{Body, Expr, Form};
use msp_decode::{Instr, encode};
use std::alloc::{AllocError, Global};
use text_scan::{Bytes, WordFault};
use word_arith::Size;

/// How many bytes a statement places.
pub fn size_of(body: &Body<'_>) -> usize
    ensures { result ≡ size_of body.now }
{
    match body {
        Body::Instr(mnemonic, size, first, second) => {
            let operands = Operands {
                first: first.as_ref(),
                second: second.as_ref(),
            };
            usize::from(form_size(Form::of(*mnemonic), *size, operands))
        }
        Body::Word(exprs) => 2 * exprs.as_slice().len(),
        Body::Byte(exprs) => exprs.as_slice().len(),
        Body::Ascii(text) => text.as_slice().len(),
        Body::Empty | Body::Org(_) | Body::Equ(..) => 0,
    }
}

/// Whether a statement has to stand at an even address.
pub fn is_of_words(body: &Body<'_>) -> bool
    ensures { result ≡ is_of_words body.now }
{
    matches!(body, Body::Instr(..) | Body::Word(_))
}

// Puts a word after the bytes, its low byte first.
fn push_word(bytes: &mut Vec<u8>, word: u16) -> Result<(), AllocError>
    ensures { OnOk result (bytes.new.items ≡ bytes.old.items ++ word_bytes word) }
{
    bytes.extend_from_slice(&word.to_le_bytes())
}

// Puts a value of this size after the bytes.
fn push_value(bytes: &mut Vec<u8>, size: Size, value: i128) -> Result<(), WordFault>
    ensures { AddsBytes result bytes.old.items bytes.new.items (value_bytes size value) }
{
    let outcome = match size {
        Size::Word => push_word(bytes, word_of(value)?),
        Size::Byte => bytes.extend_from_slice(&[byte_of(value)?]),
    };
    outcome.map_err(WordFault::Memory)
}

// Puts values of this size after the bytes.
fn push_values(bytes: &mut Vec<u8>, size: Size, values: &[i128]) -> Result<(), WordFault>
    ensures { AddsBytes result bytes.old.items bytes.new.items (all_bytes size values.now) }
{
    for value in values {
        if let Err(fault) = push_value(bytes, size, *value) {
            return Err(fault);
        }
    }
    Ok(())
}

// Puts the words of an instruction after the bytes.
fn push_instruction(bytes: &mut Vec<u8>, instr: &Instr) -> Result<(), AllocError>
    requires { first_fault (head_part instr.now) ≡ None }
    ensures { OnOk result
        (bytes.new.items ≡ bytes.old.items ++ flat_map word_bytes (words_of instr.now)) }
{
    let Ok(words) = encode(instr) else {
        unreachable!();
    };
    for i in 0..words.len() {
        let Some(word) = words.get(i) else {
            unreachable!();
        };
        push_word(bytes, word)?;
    }
    Ok(())
}

impl Scope<'_, '_> {
    ghost use Rattle.std.specs.Prelude.{IfOk};
    ghost use Rattle.msp_decode.specs.declared.instr.Instr.{Instr};
    ghost use Rattle.text_scan.specs.Reader.{ReadsWord};
    ghost use Rattle.msp_asm.specs.{Value.scope_in, Statement.{values_of, bytes_of, IsNamed, AreBytesOf}, StatementBytes.{GivesValues, AddsBytes}};

    // The values of expressions.
    fn values(&self, alloc: Global, exprs: &[Expr<'_>]) -> Result<Vec<i128>, WordFault>
        ensures { GivesValues result (values_of (scope_in self.now) exprs.now) }
    {
        let mut values = Vec::new(alloc);
        for expr in exprs {
            let value = self.defined_value(expr)?;
            if values.push(value).is_err() {
                return Err(WordFault::Memory(AllocError));
            }
        }
        Ok(values)
    }

    // Puts the bytes of a statement after the bytes.
    fn push_bytes(
        &self,
        alloc: Global,
        bytes: &mut Vec<u8>,
        body: &Body<'_>,
    ) -> Result<(), WordFault>
        ensures { AddsBytes result bytes.old.items bytes.new.items
            (bytes_of (scope_in self.now) body.now) }
    {
        match body {
            Body::Instr(mnemonic, size, first, second) => {
                let operands = Operands {
                    first: first.as_ref(),
                    second: second.as_ref(),
                };
                let instr = self.instruction(Form::of(*mnemonic), *size, operands)?;
                push_instruction(bytes, &instr).map_err(WordFault::Memory)
            }
            Body::Word(exprs) => {
                push_values(bytes, Size::Word, &self.values(alloc, exprs.as_slice())?)
            }
            Body::Byte(exprs) => {
                push_values(bytes, Size::Byte, &self.values(alloc, exprs.as_slice())?)
            }
            Body::Ascii(text) => bytes
                .extend_from_slice(text.as_slice())
                .map_err(WordFault::Memory),
            Body::Empty | Body::Org(_) | Body::Equ(..) => Ok(()),
        }
    }

    /// The bytes that a statement places, or its first fault. Those of an instruction are read as
    /// the instruction that the statement names.
    pub fn bytes_of(&self, alloc: Global, body: &Body<'_>) -> Result<Bytes, WordFault>
        ensures value { ReadsWord result (bytes_of (scope_in self.now) body.now) }
        ensures decoded { (instr : Instr)
            → IsNamed (scope_in self.now) body.now instr
            → IfOk result (λ bytes. AreBytesOf bytes instr) }
    {
        named_instructions_are_read();
        let mut bytes = Vec::new(alloc);
        match self.push_bytes(alloc, &mut bytes, body) {
            Ok(()) => Ok(Bytes::from_vec(bytes)),
            Err(fault) => Err(fault),
        }
    }
}
