ghost use Rattle.std.specs.{Prelude.{◌≡◌, ◌+◌, ◌≤◌, length, IfOk}, List.position_or_len};
ghost use Rattle.asm_text.specs.{Word.{is_word_character, ends_word}, Token.{is_text_character, ends_text, text_piece, mark_piece, piece_of, IsWithin}};

use crate::characters::Characters;
use crate::piece::Piece;
use crate::token::Token;
use crate::word_piece::{is_name_character, word_piece};
use std::alloc::{AllocError, Global};

/// What stands at the beginning of these characters.
#[tactic(auto, unfolding(crate::specs::Token::piece_of))]
pub fn piece_of<'a>(alloc: Global, rest: &'a [u8]) -> Result<Piece<'a>, AllocError>
    ensures piece { IfOk result (λ piece. piece ≡ piece_of rest.now) }
    ensures within { IfOk result (λ piece. IsWithin piece (length rest.now)) }
{
    let [first, others @ ..] = rest else {
        return Ok(Piece::Stray);
    };
    match *first {
        b' ' | b'\t' => Ok(Piece::Blank),
        b';' => Ok(Piece::Comment),
        b'"' => Ok(text_piece(others)),
        byte if is_word_character(byte) => word_piece(alloc, &rest[..word_len(rest)]),
        byte => Ok(mark_piece(byte)),
    }
}

fn is_word_character(byte: u8) -> bool
    ensures { result ≡ is_word_character byte }
{
    is_name_character(&byte) || byte == b'.'
}

// The number of characters of a word before another character.
fn word_len(characters: &[u8]) -> usize
    ensures count { result ≡ position_or_len ends_word characters.now }
    ensures within { result ≤ length characters.now }
{
    characters
        .iter()
        .position(|byte| !is_word_character(*byte))
        .unwrap_or(characters.len())
}

// A text from behind its first quote on.
fn text_piece(characters: &[u8]) -> Piece<'_>
    ensures piece { result ≡ text_piece characters.now }
    ensures within { IsWithin result (length characters.now + 1) }
{
    let count = text_len(characters);
    if characters.get(count) != Some(&b'"') {
        return Piece::Stray;
    }
    let text = Characters::new(&characters[..count]);
    Piece::Token(Token::Text(text), count + 2)
}

// The number of characters of a text before another character.
fn text_len(characters: &[u8]) -> usize
    ensures count { result ≡ position_or_len ends_text characters.now }
    ensures within { result ≤ length characters.now }
{
    characters
        .iter()
        .position(|byte| !is_text_character(*byte))
        .unwrap_or(characters.len())
}

fn is_text_character(byte: u8) -> bool
    ensures { result ≡ is_text_character byte }
{
    matches!(byte, b' '..=b'~') && byte != b'"' && byte != b'\\'
}

fn mark_piece<'a>(byte: u8) -> Piece<'a>
    ensures piece { result ≡ mark_piece byte }
    ensures within { IsWithin result 1 }
{
    match byte {
        b'$' => Piece::Token(Token::Here, 1),
        b':' => Piece::Token(Token::Colon, 1),
        b',' => Piece::Token(Token::Comma, 1),
        b'#' => Piece::Token(Token::Hash, 1),
        b'&' => Piece::Token(Token::Ampersand, 1),
        b'@' => Piece::Token(Token::At, 1),
        b'+' => Piece::Token(Token::Plus, 1),
        b'-' => Piece::Token(Token::Minus, 1),
        b'(' => Piece::Token(Token::Open, 1),
        b')' => Piece::Token(Token::Close, 1),
        _ => Piece::Stray,
    }
}
