ghost use Rattle.std.specs.Prelude.{◌≡◌};
ghost use Rattle.text_scan.specs.Reader.{ReadsWord};
ghost use Rattle.asm_text.specs.Statement.{body_of, first_word, operation_body, statement_body, labelled_body};

use crate::body::Body;
use crate::characters::Characters;
use crate::directive::{equ_of, org_of, read_ascii};
use crate::instruction::instruction_of;
use crate::operands::{Operands, read_operands};
use crate::operation::Operation;
use crate::token::Token;
use std::alloc::Global;
use text_scan::{FaultKind, WordFault};

/// The label and the body of a line's tokens, or the line's fault.
pub fn read_labelled<'a>(
    alloc: Global,
    tokens: &[Token<'a>],
) -> Result<(Option<Characters<'a>>, Body<'a>), WordFault>
    ensures { ReadsWord result (labelled_body tokens.now) }
{
    match tokens {
        [token, Token::Colon, rest @ ..] => match token {
            Token::Name(label, _) => Ok((Some(label.again()), read_statement(alloc, rest)?)),
            _ => Ok((None, read_statement(alloc, tokens)?)),
        },
        _ => Ok((None, read_statement(alloc, tokens)?)),
    }
}

fn read_statement<'a>(alloc: Global, tokens: &[Token<'a>]) -> Result<Body<'a>, WordFault>
    ensures { ReadsWord result (statement_body tokens.now) }
{
    match tokens {
        [] => Ok(Body::Empty),
        [word, rest @ ..] => read_operation(alloc, first_word(word)?, rest),
    }
}

// The operation of a statement's first word, if it names one.
fn first_word(word: &Token<'_>) -> Result<Option<Operation>, FaultKind>
    ensures { result ≡ first_word word.now }
{
    match word {
        Token::Name(_, operation) | Token::Word(operation) => Ok(*operation),
        Token::Register(_) => Ok(None),
        _ => Err(FaultKind::Syntax),
    }
}

#[tactic(auto, unfolding(crate::specs::Statement::operation_body))]
fn read_operation<'a>(
    alloc: Global,
    operation: Option<Operation>,
    rest: &[Token<'a>],
) -> Result<Body<'a>, WordFault>
    ensures { ReadsWord result (operation_body operation rest.now) }
{
    if let Some(Operation::Ascii) = operation {
        return read_ascii(alloc, rest);
    }
    body_of(alloc, operation, read_operands(alloc, rest)?)
}

fn body_of<'a>(
    alloc: Global,
    operation: Option<Operation>,
    operands: Operands<'a>,
) -> Result<Body<'a>, WordFault>
    ensures { ReadsWord result (body_of operation operands.entry) }
{
    match operation {
        Some(Operation::Instr(mnemonic, size)) => Ok(instruction_of(mnemonic, size, operands)?),
        Some(Operation::Org) => Ok(org_of(operands)?),
        Some(Operation::Word) => Ok(Body::Word(operands.into_exprs(alloc)?)),
        Some(Operation::Byte) => Ok(Body::Byte(operands.into_exprs(alloc)?)),
        Some(Operation::Equ) => Ok(equ_of(operands)?),
        Some(Operation::Ascii) => Err(WordFault::Kind(FaultKind::Operand)),
        None => Err(WordFault::Kind(FaultKind::Mnemonic)),
    }
}
