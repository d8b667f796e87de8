use crate::characters::Characters;
use crate::expr::Expr;
use crate::exprs::Exprs;
use crate::mnemonic::Mnemonic;
use crate::operand::Operand;
use word_arith::Size;

/// What a line says behind its label.
#[derive(Debug, Drop)]
pub enum Body<'a> {
    Empty,
    /// An instruction with its operands in the order written. An instruction of one operand has it
    /// first.
    Instr(Mnemonic, Size, Option<Operand<'a>>, Option<Operand<'a>>),
    /// The next byte stands at this place.
    Org(Expr<'a>),
    Word(Exprs<'a>),
    Byte(Exprs<'a>),
    /// The characters between the quotes.
    Ascii(Characters<'a>),
    /// A name and its value.
    Equ(Characters<'a>, Expr<'a>),
}
