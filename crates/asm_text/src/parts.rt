ghost use Rattle.std.specs.{Prelude.{◌≡◌, ◌∷◌, ◌≤◌, List, length}, Option.option_copied, Iterator.{YieldsFirstRef, item_count}, List.{slice_split, position_or_len}};
ghost use Rattle.asm_text.specs.{declared.token.Token.Token, Operand.{is_comma, parts_of, parts_behind}};

use crate::token::Token;
use std::marker::Model;

/// What stands between the commas of tokens. Where there is no token, there is no part.
#[derive(Debug, Drop)]
pub struct Parts<'t, 'a> {
    rest: Option<&'t [Token<'a>]>,
}

// Seen as the parts that are left.
impl<'t, 'a> Model for Parts<'t, 'a> {
    ghost Value = { List (List Token) };

    ghost view = { λ it. parts_behind (option_copied it.rest) };
}

impl<'t, 'a> Parts<'t, 'a> {
    pub fn new(tokens: &'t [Token<'a>]) -> Parts<'t, 'a>
        ensures { result ≡ parts_of tokens.now }
    {
        if tokens.is_empty() {
            return Parts { rest: None };
        }
        Parts { rest: Some(tokens) }
    }
}

impl<'t, 'a> Iterator for Parts<'t, 'a> {
    type Item = &'t [Token<'a>];

    ghost next_gives = { YieldsFirstRef (λ rest. rest) };

    ghost remaining = { item_count (λ rest. rest) };

    fn next(&mut self) -> Option<&'t [Token<'a>]> {
        let tokens = self.rest?;
        let (part, rest) = first_part(tokens);
        self.rest = rest;
        Some(part)
    }
}

// What stands before the first comma, and what stands behind it, if there is one.
fn first_part<'t, 'a>(tokens: &'t [Token<'a>]) -> (&'t [Token<'a>], Option<&'t [Token<'a>]>)
    ensures { slice_split is_comma tokens.now
        ≡ result.0.now ∷ parts_behind (option_copied result.1) }
{
    let end = part_len(tokens);
    if end == tokens.len() {
        return (tokens, None);
    }
    (&tokens[..end], Some(&tokens[end + 1..]))
}

// The number of tokens before the first comma, or of all where there is none.
fn part_len(tokens: &[Token<'_>]) -> usize
    ensures count { result ≡ position_or_len is_comma tokens.now }
    ensures within { result ≤ length tokens.now }
{
    tokens
        .iter()
        .position(|token| is_comma(token))
        .unwrap_or(tokens.len())
}

fn is_comma(token: &Token<'_>) -> bool
    ensures { result ≡ is_comma token.now }
{
    matches!(token, Token::Comma)
}
