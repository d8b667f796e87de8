/// An operation of two operands, by its mnemonic.
#[derive(Clone, Copy, Debug, PartialEq, Eq)]
pub enum Op2 {
    Mov,
    Add,
    Addc,
    Subc,
    Sub,
    Cmp,
    Dadd,
    Bit,
    Bic,
    Bis,
    Xor,
    And,
}
