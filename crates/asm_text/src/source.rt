ghost use Rattle.std.specs.{Prelude.{◌≡◌, ◌++◌, ◌∷◌, [], List, OnOk, length}, List.slice_get, Option.option_copied};
ghost use Rattle.asm_text.specs.declared.statement.Statement.{Statement};

use crate::statement::Statement;
use std::alloc::{AllocError, Global};
use std::marker::Model;

/// The statements of a source, one for each line.
#[derive(Debug, Drop)]
pub struct Source<'a> {
    statements: Vec<Statement<'a>>,
}

impl<'a> Model for Source<'a> {
    ghost Value = { List Statement };

    ghost view = { λ source. source.statements.items };
}

impl<'a> Source<'a> {
    pub(crate) fn new(alloc: Global) -> Source<'a>
        ensures { result ≡ [] }
    {
        Source {
            statements: Vec::new(alloc),
        }
    }

    // Puts a statement after the others.
    pub(crate) fn add(&mut self, statement: Statement<'a>) -> Result<(), AllocError>
        ensures { OnOk result (self.new ≡ self.old ++ statement.entry ∷ []) }
    {
        self.statements.reserve(1)?;
        self.statements.push_reserved(statement);
        Ok(())
    }

    /// The number of statements, which is that of the lines.
    pub fn len(&self) -> usize
        ensures { result ≡ length self.now }
    {
        self.statements.len()
    }

    /// The statement at an index from 0; `None` past the last.
    pub fn get(&self, i: usize) -> Option<&Statement<'a>>
        ensures { option_copied result ≡ slice_get self.now i }
    {
        self.statements.get(i)
    }

    /// All statements in the order of their lines.
    pub fn as_slice(&self) -> &[Statement<'a>]
        ensures { result.now ≡ self.now }
    {
        &self.statements
    }
}
