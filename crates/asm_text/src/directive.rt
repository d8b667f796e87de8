ghost use Rattle.std.specs.Prelude.{◌≡◌};
ghost use Rattle.text_scan.specs.Reader.{ReadsWord};
ghost use Rattle.asm_text.specs.Statement.{org_of, equ_of, is_readable, ascii_of, lone_expr, lone_name};

use crate::body::Body;
use crate::characters::Characters;
use crate::expr::Expr;
use crate::operand::Operand;
use crate::operand_reader::read_operand;
use crate::operands::Operands;
use crate::parts::Parts;
use crate::term::Term;
use crate::token::Token;
use std::alloc::Global;
use text_scan::{FaultKind, WordFault};

/// `.org E`
pub fn org_of<'a>(operands: Operands<'a>) -> Result<Body<'a>, FaultKind>
    ensures { result ≡ org_of operands.entry }
{
    let (first, second) = operands.into_two()?;
    if second.is_some() {
        return Err(FaultKind::Operand);
    }
    Ok(Body::Org(lone_expr(first)?))
}

/// `.equ NAME, E`
pub fn equ_of<'a>(operands: Operands<'a>) -> Result<Body<'a>, FaultKind>
    ensures { result ≡ equ_of operands.entry }
{
    let (first, second) = operands.into_two()?;
    let name = lone_expr(first)?;
    let name = lone_name(&name)?;
    Ok(Body::Equ(name, lone_expr(second)?))
}

// The expression that an operand is.
fn lone_expr<'a>(operand: Option<Operand<'a>>) -> Result<Expr<'a>, FaultKind>
    ensures { result ≡ lone_expr operand.entry }
{
    match operand {
        Some(Operand::Symbolic(expr)) => Ok(expr),
        _ => Err(FaultKind::Operand),
    }
}

// The name that an expression is.
fn lone_name<'a>(expr: &Expr<'a>) -> Result<Characters<'a>, FaultKind>
    ensures { result ≡ lone_name expr.now }
{
    let [signed] = expr.as_slice() else {
        return Err(FaultKind::Operand);
    };
    match signed {
        (false, Term::Name(name)) => Ok(name.again()),
        _ => Err(FaultKind::Operand),
    }
}

/// `.ascii "T"`, from behind its first word on. Where it is read but is none, the fault is
/// `Operand`.
pub fn read_ascii<'a>(alloc: Global, tokens: &[Token<'a>]) -> Result<Body<'a>, WordFault>
    ensures { ReadsWord result (ascii_of tokens.now) }
{
    if let [token] = tokens {
        if let Token::Text(text) = token {
            return Ok(Body::Ascii(text.again()));
        }
    }
    for part in Parts::new(tokens) {
        check_readable(alloc, part)?;
    }
    Err(WordFault::Kind(FaultKind::Operand))
}

// `Syntax` where a part is neither a text nor an operand.
fn check_readable(alloc: Global, part: &[Token<'_>]) -> Result<(), WordFault>
    ensures { ReadsWord result (is_readable part.now) }
{
    if let [Token::Text(_)] = part {
        return Ok(());
    }
    read_operand(alloc, part)?;
    Ok(())
}
