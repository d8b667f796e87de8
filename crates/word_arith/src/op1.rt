/// An operation of one operand that gives a result, by its mnemonic.
#[derive(Clone, Copy, Debug, PartialEq, Eq)]
pub enum Op1 {
    Rrc,
    Swpb,
    Rra,
    Sxt,
}
