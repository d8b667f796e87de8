use crate::characters::Characters;
use crate::operation::Operation;
use msp_decode::Reg;

/// The smallest part of a line that has a meaning.
#[derive(Debug, Drop)]
pub enum Token<'a> {
    Number(u16),
    Register(Reg),
    /// A word that may be a name, and the operation that it names where it stands first.
    Name(Characters<'a>, Option<Operation>),
    /// Another word, and the operation that it names.
    Word(Option<Operation>),
    /// The characters between two quotes.
    Text(Characters<'a>),
    Here,
    Colon,
    Comma,
    Hash,
    Ampersand,
    At,
    Plus,
    Minus,
    Open,
    Close,
}
