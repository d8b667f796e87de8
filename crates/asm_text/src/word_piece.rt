ghost use Rattle.std.specs.{Prelude.{◌≡◌, ◌<◌, length, IfOk}, List.list_all};
ghost use Rattle.asm_text.specs.{Word.{is_name, is_name_character}, Token.{number_piece, word_token, word_piece, IsWithin}};

use crate::characters::Characters;
use crate::number_word::number_of;
use crate::operation_word::operation_of;
use crate::piece::Piece;
use crate::register_word::register_of;
use crate::token::Token;
use std::alloc::{AllocError, Global};

// The most characters of a name.
const LONGEST_NAME: usize = 64;

/// The token of a whole word: a number where it begins with a digit.
#[tactic(auto, unfolding(crate::specs::Token::word_piece))]
pub fn word_piece<'a>(alloc: Global, word: &'a [u8]) -> Result<Piece<'a>, AllocError>
    requires { 0 < length word.now }
    ensures piece { IfOk result (λ piece. piece ≡ word_piece word.now) }
    ensures within { IfOk result (λ piece. IsWithin piece (length word.now)) }
{
    if word[0].is_ascii_digit() {
        return Ok(number_piece(number_of(word), word.len()));
    }
    Ok(Piece::Token(word_token(alloc, word)?, word.len()))
}

fn number_piece<'a>(number: Option<u16>, count: usize) -> Piece<'a>
    requires { 0 < count }
    ensures piece { result ≡ number_piece number count }
    ensures within { IsWithin result count }
{
    match number {
        Some(number) => Piece::Token(Token::Number(number), count),
        None => Piece::Stray,
    }
}

fn word_token<'a>(alloc: Global, word: &'a [u8]) -> Result<Token<'a>, AllocError>
    ensures { IfOk result (λ token. token ≡ word_token word.now) }
{
    let mut lower = Vec::from_slice(alloc, word)?;
    lower.make_ascii_lowercase();
    if let Some(register) = register_of(&lower) {
        return Ok(Token::Register(register));
    }
    let operation = operation_of(&lower);
    if !is_name(word) {
        return Ok(Token::Word(operation));
    }
    Ok(Token::Name(Characters::new(word), operation))
}

fn is_name(word: &[u8]) -> bool
    ensures { result ≡ is_name word.now }
{
    !word.is_empty()
        && word.len() <= LONGEST_NAME
        && has_name_characters(word)
        && !word[0].is_ascii_digit()
}

fn has_name_characters(word: &[u8]) -> bool
    ensures { result ≡ list_all is_name_character word.now }
{
    word.iter().all(is_name_character)
}

pub(crate) fn is_name_character(character: &u8) -> bool
    ensures { result ≡ is_name_character character.now }
{
    character.is_ascii_alphanumeric() || *character == b'_'
}
