ghost use Rattle.std.specs.Prelude.{◌≡◌, ◌++◌, ◌∷◌, [], List, OnOk};
ghost use Rattle.text_scan.specs.Reader.{ReadsWord};
ghost use Rattle.asm_text.specs.{declared.operand.Operand.Operand, Operand.operands_of, Statement.{two_of, all_exprs, exprs_of}};

use crate::exprs::Exprs;
use crate::operand::Operand;
use crate::operand_reader::read_operand;
use crate::parts::Parts;
use crate::token::Token;
use std::alloc::{AllocError, Global};
use std::marker::Model;
use text_scan::{FaultKind, WordFault};

/// The operands of a statement in the order written.
#[derive(Debug, Drop)]
pub struct Operands<'a> {
    operands: Vec<Operand<'a>>,
}

impl<'a> Model for Operands<'a> {
    ghost Value = { List Operand };

    ghost view = { λ operands. operands.operands.items };
}

impl<'a> Operands<'a> {
    fn new(alloc: Global) -> Operands<'a>
        ensures { result ≡ [] }
    {
        Operands {
            operands: Vec::new(alloc),
        }
    }

    fn add(&mut self, operand: Operand<'a>) -> Result<(), AllocError>
        ensures { OnOk result (self.new ≡ self.old ++ operand.entry ∷ []) }
    {
        self.operands.reserve(1)?;
        self.operands.push_reserved(operand);
        Ok(())
    }

    /// At most two operands.
    pub fn into_two(self) -> Result<(Option<Operand<'a>>, Option<Operand<'a>>), FaultKind>
        ensures { result ≡ two_of self.entry }
    {
        let mut operands = self.operands.into_iter();
        let first = operands.next();
        let second = operands.next();
        match operands.next() {
            None => Ok((first, second)),
            Some(_) => Err(FaultKind::Operand),
        }
    }

    /// One expression or more.
    pub fn into_exprs(self, alloc: Global) -> Result<Exprs<'a>, WordFault>
        ensures { ReadsWord result (exprs_of self.entry) }
    {
        if self.operands.is_empty() {
            return Err(WordFault::Kind(FaultKind::Operand));
        }
        all_exprs(alloc, self.operands)
    }
}

// The expressions that operands are, each of them alone.
fn all_exprs<'a>(alloc: Global, operands: Vec<Operand<'a>>) -> Result<Exprs<'a>, WordFault>
    ensures { ReadsWord result (all_exprs operands.entry.items) }
{
    let mut exprs = Exprs::new(alloc);
    for operand in operands {
        let Operand::Symbolic(expr) = operand else {
            return Err(WordFault::Kind(FaultKind::Operand));
        };
        exprs.add(expr).map_err(WordFault::Memory)?;
    }
    Ok(exprs)
}

/// The operands of these tokens; `Syntax` where a part between commas is none.
pub fn read_operands<'a>(alloc: Global, tokens: &[Token<'a>]) -> Result<Operands<'a>, WordFault>
    ensures { ReadsWord result (operands_of tokens.now) }
{
    let mut operands = Operands::new(alloc);
    for part in Parts::new(tokens) {
        let operand = read_operand(alloc, part)?;
        operands.add(operand).map_err(WordFault::Memory)?;
    }
    Ok(operands)
}
