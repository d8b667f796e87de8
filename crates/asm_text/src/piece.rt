use crate::token::Token;

/// What stands first of some characters.
#[derive(Debug, Drop)]
pub enum Piece<'a> {
    Blank,
    /// A comment, to the end of the line.
    Comment,
    /// A token and its number of characters.
    Token(Token<'a>, usize),
    /// A character with which no token begins, or an unfinished token.
    Stray,
}
