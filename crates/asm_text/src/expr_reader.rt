ghost use Rattle.std.specs.Prelude.{◌≡◌};
ghost use Rattle.text_scan.specs.Reader.{ReadsWord};
ghost use Rattle.asm_text.specs.Operand.{term_of, sign_of, expr_of, terms_of};

use crate::expr::Expr;
use crate::term::Term;
use crate::token::Token;
use std::alloc::Global;
use text_scan::{FaultKind, WordFault};

/// The expression of these tokens; `Syntax` where they are none.
pub fn read_expr<'a>(alloc: Global, tokens: &[Token<'a>]) -> Result<Expr<'a>, WordFault>
    ensures { ReadsWord result (expr_of tokens.now) }
{
    match tokens {
        [Token::Minus, rest @ ..] => read_terms(alloc, true, rest),
        _ => read_terms(alloc, false, tokens),
    }
}

// Terms, of which the first is subtracted or not, each with its sign before the next.
fn read_terms<'a>(
    alloc: Global,
    is_subtracted: bool,
    tokens: &[Token<'a>],
) -> Result<Expr<'a>, WordFault>
    ensures { ReadsWord result (terms_of is_subtracted tokens.now) }
{
    let mut expr = Expr::new(alloc);
    let mut sign = is_subtracted;
    let mut rest = tokens;
    while let [first, sign_token, others @ ..] = rest {
        expr.add(sign, term_of(first)?).map_err(WordFault::Memory)?;
        sign = sign_of(sign_token)?;
        rest = others;
    }
    match rest {
        [] => Err(WordFault::Kind(FaultKind::Syntax)),
        [last, ..] => {
            expr.add(sign, term_of(last)?).map_err(WordFault::Memory)?;
            Ok(expr)
        }
    }
}

fn term_of<'a>(token: &Token<'a>) -> Result<Term<'a>, FaultKind>
    ensures { result ≡ term_of token.now }
{
    match token {
        Token::Number(number) => Ok(Term::Number(*number)),
        Token::Name(name, _) => Ok(Term::Name(name.again())),
        Token::Here => Ok(Term::Here),
        _ => Err(FaultKind::Syntax),
    }
}

// Whether the term behind a sign is subtracted.
fn sign_of(token: &Token<'_>) -> Result<bool, FaultKind>
    ensures { result ≡ sign_of token.now }
{
    match token {
        Token::Plus => Ok(false),
        Token::Minus => Ok(true),
        _ => Err(FaultKind::Syntax),
    }
}
