ghost use Rattle.std.specs.{Prelude.{◌≡◌, ◌++◌, ◌∷◌, [], List, OnOk, length}, List.slice_get, Option.option_copied};
ghost use Rattle.asm_text.specs.Expr.{SignedTerm};

use crate::term::Term;
use std::alloc::{AllocError, Global};
use std::marker::Model;

/// An expression: terms that are added or subtracted.
#[derive(Debug, Drop)]
pub struct Expr<'a> {
    terms: Vec<(bool, Term<'a>)>,
}

// Seen as its terms in the order written, each with whether it is subtracted.
impl<'a> Model for Expr<'a> {
    ghost Value = { List SignedTerm };

    ghost view = { λ expr. expr.terms.items };
}

impl<'a> Expr<'a> {
    pub(crate) fn new(alloc: Global) -> Expr<'a>
        ensures { result ≡ [] }
    {
        Expr {
            terms: Vec::new(alloc),
        }
    }

    // Puts a term after the others.
    pub(crate) fn add(&mut self, is_subtracted: bool, term: Term<'a>) -> Result<(), AllocError>
        ensures { OnOk result (self.new ≡ self.old ++ (is_subtracted, term.entry) ∷ []) }
    {
        self.terms.reserve(1)?;
        self.terms.push_reserved((is_subtracted, term));
        Ok(())
    }

    /// The number of terms.
    pub fn len(&self) -> usize
        ensures { result ≡ length self.now }
    {
        self.terms.len()
    }

    /// Whether a term is subtracted, and the term, at an index from 0; `None` past the last.
    pub fn get(&self, i: usize) -> Option<&(bool, Term<'a>)>
        ensures { option_copied result ≡ slice_get self.now i }
    {
        self.terms.get(i)
    }

    /// All terms in the order written, each with whether it is subtracted.
    pub fn as_slice(&self) -> &[(bool, Term<'a>)]
        ensures { result.now ≡ self.now }
    {
        &self.terms
    }
}
