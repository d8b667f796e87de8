ghost use Rattle.std.specs.Prelude.{◌≡◌, ◌++◌, ◌∷◌, [], List, OnOk};
ghost use Rattle.text_scan.specs.Reader.{ReadsWord};
ghost use Rattle.asm_text.specs.{declared.token.Token.Token, Token.tokens_of};

use crate::line_piece::piece_of;
use crate::piece::Piece;
use crate::token::Token;
use std::alloc::{AllocError, Global};
use std::marker::Model;
use text_scan::{FaultKind, WordFault};

/// The tokens of a line.
#[derive(Debug, Drop)]
pub struct Tokens<'a> {
    tokens: Vec<Token<'a>>,
}

impl<'a> Model for Tokens<'a> {
    ghost Value = { List Token };

    ghost view = { λ tokens. tokens.tokens.items };
}

impl<'a> Tokens<'a> {
    fn new(alloc: Global) -> Tokens<'a>
        ensures { result ≡ [] }
    {
        Tokens {
            tokens: Vec::new(alloc),
        }
    }

    fn add(&mut self, token: Token<'a>) -> Result<(), AllocError>
        ensures { OnOk result (self.new ≡ self.old ++ token.entry ∷ []) }
    {
        self.tokens.reserve(1)?;
        self.tokens.push_reserved(token);
        Ok(())
    }

    pub fn as_slice(&self) -> &[Token<'a>]
        ensures { result.now ≡ self.now }
    {
        &self.tokens
    }
}

/// The tokens of a line; `Syntax` where a part of it is none.
pub fn read_tokens<'a>(alloc: Global, line: &'a [u8]) -> Result<Tokens<'a>, WordFault>
    ensures { ReadsWord result (tokens_of line.now) }
{
    let mut tokens = Tokens::new(alloc);
    let mut at = 0;
    while at < line.len() {
        match piece_of(alloc, &line[at..]).map_err(WordFault::Memory)? {
            Piece::Blank => at += 1,
            Piece::Comment => return Ok(tokens),
            Piece::Token(token, count) => {
                tokens.add(token).map_err(WordFault::Memory)?;
                at += count;
            }
            Piece::Stray => return Err(WordFault::Kind(FaultKind::Syntax)),
        }
    }
    Ok(tokens)
}
