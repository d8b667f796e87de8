use crate::mnemonic::Mnemonic;
use word_arith::Size;

/// What the first word of a statement asks for.
#[derive(Clone, Copy, Debug, PartialEq, Eq)]
pub enum Operation {
    Instr(Mnemonic, Size),
    Org,
    Word,
    Byte,
    Ascii,
    Equ,
}
