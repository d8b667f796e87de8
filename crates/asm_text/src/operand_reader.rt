ghost use Rattle.std.specs.Prelude.{◌≡◌};
ghost use Rattle.text_scan.specs.Reader.{ReadsWord};
ghost use Rattle.asm_text.specs.Operand.{pointer_of, place_of, operand_of};

use crate::expr_reader::read_expr;
use crate::operand::Operand;
use crate::token::Token;
use std::alloc::Global;
use text_scan::{FaultKind, WordFault};

/// The operand of these tokens; `Syntax` where they are none.
pub fn read_operand<'a>(alloc: Global, tokens: &[Token<'a>]) -> Result<Operand<'a>, WordFault>
    ensures { ReadsWord result (operand_of tokens.now) }
{
    match tokens {
        [Token::Hash, rest @ ..] => Ok(Operand::Imm(read_expr(alloc, rest)?)),
        [Token::Ampersand, rest @ ..] => Ok(Operand::Abs(read_expr(alloc, rest)?)),
        [Token::At, rest @ ..] => Ok(pointer_of(rest)?),
        [token] => match token {
            Token::Register(register) => Ok(Operand::Reg(*register)),
            _ => read_place(alloc, tokens),
        },
        _ => read_place(alloc, tokens),
    }
}

// `Rn` or `Rn+`, behind `@`.
fn pointer_of<'a>(tokens: &[Token<'a>]) -> Result<Operand<'a>, FaultKind>
    ensures { result ≡ pointer_of tokens.now }
{
    let [token, rest @ ..] = tokens else {
        return Err(FaultKind::Syntax);
    };
    match (token, rest) {
        (Token::Register(register), []) => Ok(Operand::Indirect(*register)),
        (Token::Register(register), [Token::Plus]) => Ok(Operand::IndirectInc(*register)),
        _ => Err(FaultKind::Syntax),
    }
}

// `E(Rn)` or `E`.
fn read_place<'a>(alloc: Global, tokens: &[Token<'a>]) -> Result<Operand<'a>, WordFault>
    ensures { ReadsWord result (place_of tokens.now) }
{
    let (prefix, last) = tokens.split_at(tokens.len().saturating_sub(3));
    if let [Token::Open, token, Token::Close] = last {
        if let Token::Register(register) = token {
            return Ok(Operand::Indexed(read_expr(alloc, prefix)?, *register));
        }
    }
    Ok(Operand::Symbolic(read_expr(alloc, tokens)?))
}
