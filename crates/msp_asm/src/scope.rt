ghost use Rattle.std.specs.Prelude.{◌≡◌, ◌≤ℤ◌, ◌^◌, pos, neg_ℤ};
ghost use Rattle.msp_asm.specs.Value.{with_sign};

use crate::names::Names;
use asm_text::{Expr, Term};
use text_scan::FaultKind;

/// What an expression is read in: the values of names, and the address of the statement's first
/// byte, which is 65,536 after the last place.
#[derive(Clone, Copy)]
pub struct Scope<'s, 'a> {
    pub names: &'s Names<'a>,
    pub here: u32,
}

// A value with its sign turned, where it is subtracted.
fn with_sign(is_subtracted: bool, value: i64) -> i128
    ensures value { result ≡ with_sign is_subtracted value }
    ensures least { neg_ℤ (pos (2 ^ 63)) ≤ℤ result }
    ensures most { result ≤ℤ pos (2 ^ 63) }
{
    let value = i128::from(value);
    if is_subtracted { -value } else { value }
}

impl Scope<'_, '_> {
    ghost use Rattle.std.specs.Prelude.{◌≡◌};
    ghost use Rattle.msp_asm.specs.Value.{term_value, value, known_value, scope_in};

    fn term_value(&self, term: &Term<'_>) -> Option<i64>
        ensures { result ≡ term_value (scope_in self.now) term.now }
    {
        match term {
            Term::Number(number) => Some(i64::from(*number)),
            Term::Name(name) => self.names.get(name.as_slice()).map(i64::from),
            Term::Here => Some(i64::from(self.here)),
        }
    }

    // The sum of the terms, if each name has a value.
    fn value(&self, expr: &Expr<'_>) -> Option<i128>
        ensures { result ≡ value (scope_in self.now) expr.now }
    {
        let mut total: i128 = 0;
        for (is_subtracted, term) in expr.as_slice() {
            total += with_sign(*is_subtracted, self.term_value(term)?);
        }
        Some(total)
    }

    /// The value of an expression; `Undefined` where a name has none.
    pub fn defined_value(&self, expr: &Expr<'_>) -> Result<i128, FaultKind>
        ensures { result ≡ known_value (value (scope_in self.now) expr.now) }
    {
        self.value(expr).ok_or(FaultKind::Undefined)
    }
}
