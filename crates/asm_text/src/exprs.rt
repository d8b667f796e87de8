ghost use Rattle.std.specs.{Prelude.{◌≡◌, ◌++◌, ◌∷◌, [], List, OnOk, length}, List.slice_get, Option.option_copied};
ghost use Rattle.asm_text.specs.Expr.{SignedTerm};

use crate::expr::Expr;
use std::alloc::{AllocError, Global};
use std::marker::Model;

/// Expressions in the order written.
#[derive(Debug, Drop)]
pub struct Exprs<'a> {
    exprs: Vec<Expr<'a>>,
}

impl<'a> Model for Exprs<'a> {
    ghost Value = { List (List SignedTerm) };

    ghost view = { λ exprs. exprs.exprs.items };
}

impl<'a> Exprs<'a> {
    pub(crate) fn new(alloc: Global) -> Exprs<'a>
        ensures { result ≡ [] }
    {
        Exprs {
            exprs: Vec::new(alloc),
        }
    }

    // Puts an expression after the others.
    pub(crate) fn add(&mut self, expr: Expr<'a>) -> Result<(), AllocError>
        ensures { OnOk result (self.new ≡ self.old ++ expr.entry ∷ []) }
    {
        self.exprs.reserve(1)?;
        self.exprs.push_reserved(expr);
        Ok(())
    }

    /// The number of expressions.
    pub fn len(&self) -> usize
        ensures { result ≡ length self.now }
    {
        self.exprs.len()
    }

    /// The expression at an index from 0; `None` past the last.
    pub fn get(&self, i: usize) -> Option<&Expr<'a>>
        ensures { option_copied result ≡ slice_get self.now i }
    {
        self.exprs.get(i)
    }

    /// All expressions in the order written.
    pub fn as_slice(&self) -> &[Expr<'a>]
        ensures { result.now ≡ self.now }
    {
        &self.exprs
    }
}
