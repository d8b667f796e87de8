use crate::characters::Characters;

/// What an expression adds or subtracts.
#[derive(Debug, Drop)]
pub enum Term<'a> {
    Number(u16),
    Name(Characters<'a>),
    /// `$`, the address of the statement's first byte.
    Here,
}
