use crate::expr::Expr;
use msp_decode::Reg;

/// An operand as it is written.
#[derive(Debug, Drop)]
pub enum Operand<'a> {
    /// `Rn`
    Reg(Reg),
    /// `#E`
    Imm(Expr<'a>),
    /// `&E`
    Abs(Expr<'a>),
    /// `E(Rn)`
    Indexed(Expr<'a>, Reg),
    /// `E`
    Symbolic(Expr<'a>),
    /// `@Rn`
    Indirect(Reg),
    /// `@Rn+`
    IndirectInc(Reg),
}
