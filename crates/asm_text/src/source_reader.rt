ghost use Rattle.std.specs.Prelude.{map};
ghost use Rattle.text_scan.specs.{LineFold.text_lines, Reader.{Reads, ReadsWord}};
ghost use Rattle.asm_text.specs.{Operand.all_of, Source.{line_statement, statement_of, source_of}};

use crate::source::Source;
use crate::statement::Statement;
use crate::statement_reader::read_labelled;
use crate::tokens::read_tokens;
use std::alloc::Global;
use text_scan::{Lines, TextFault, WordFault, check_utf8};

/// The statements of a source, or the first fault of its text: `Utf8` before all else, and then
/// that of the first line with a fault, `Syntax` before `Mnemonic` before `Operand`. How long a
/// text may be is its caller's affair.
#[tactic(auto, unfolding(crate::specs::Source::source_of))]
pub fn parse<'a>(alloc: Global, text: &'a [u8]) -> Result<Source<'a>, TextFault>
    ensures { Reads result (source_of text.now) }
{
    match check_utf8(text) {
        Ok(()) => read_lines(alloc, text),
        Err(fault) => Err(TextFault::At(fault)),
    }
}

fn read_lines<'a>(alloc: Global, text: &'a [u8]) -> Result<Source<'a>, TextFault>
    ensures { Reads result (all_of (map statement_of (text_lines text.now))) }
{
    let mut source = Source::new(alloc);
    for (number, line) in Lines::new(text) {
        let statement = read_numbered(alloc, number, line)?;
        source.add(statement).map_err(TextFault::Memory)?;
    }
    Ok(source)
}

// The statement of a line, or its fault with its number.
fn read_numbered<'a>(alloc: Global, number: u64, line: &'a [u8]) -> Result<Statement<'a>, TextFault>
    ensures { Reads result (statement_of (number, line.now)) }
{
    read_line(alloc, number, line).map_err(|fault| fault.in_line(number))
}

#[tactic(auto, unfolding(crate::specs::Source::line_statement))]
fn read_line<'a>(alloc: Global, number: u64, line: &'a [u8]) -> Result<Statement<'a>, WordFault>
    ensures { ReadsWord result (line_statement number line.now) }
{
    let tokens = read_tokens(alloc, line)?;
    let (label, body) = read_labelled(alloc, tokens.as_slice())?;
    Ok(Statement {
        line: number,
        label,
        body,
    })
}
