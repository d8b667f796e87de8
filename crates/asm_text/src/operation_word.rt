ghost use Rattle.std.specs.Prelude.{◌≡◌};
ghost use Rattle.asm_text.specs.Word.{byte_form, word_form, instruction_of, dot_operation_of, directive_of, operation_of};

use crate::form::Form;
use crate::mnemonic::Mnemonic;
use crate::mnemonic_word::mnemonic_of;
use crate::operation::Operation;
use word_arith::Size;

/// The operation that a word in lower case names.
pub fn operation_of(word: &[u8]) -> Option<Operation>
    ensures { result ≡ operation_of word.now }
{
    directive_of(word).or(instruction_of(word))
}

fn directive_of(word: &[u8]) -> Option<Operation>
    ensures { result ≡ directive_of word.now }
{
    match word {
        [b'.', name @ ..] => dot_operation_of(name),
        _ => None,
    }
}

// The directives, by what stands behind the dot.
fn dot_operation_of(name: &[u8]) -> Option<Operation>
    ensures { result ≡ dot_operation_of name.now }
{
    match name {
        b"org" => Some(Operation::Org),
        b"word" => Some(Operation::Word),
        b"byte" => Some(Operation::Byte),
        b"ascii" => Some(Operation::Ascii),
        b"equ" => Some(Operation::Equ),
        _ => None,
    }
}

// An instruction with its suffix: `.b` makes a byte instruction, `.w` or none a word instruction.
fn instruction_of(word: &[u8]) -> Option<Operation>
    ensures { result ≡ instruction_of word.now }
{
    let (stem, suffix) = word.split_at(word.len().saturating_sub(2));
    if suffix == b".b".as_slice() {
        byte_form(mnemonic_of(stem))
    } else if suffix == b".w".as_slice() {
        word_form(mnemonic_of(stem))
    } else {
        word_form(mnemonic_of(word))
    }
}

fn word_form(mnemonic: Option<Mnemonic>) -> Option<Operation>
    ensures { result ≡ word_form mnemonic }
{
    match mnemonic {
        Some(mnemonic) => Some(Operation::Instr(mnemonic, Size::Word)),
        None => None,
    }
}

fn byte_form(mnemonic: Option<Mnemonic>) -> Option<Operation>
    ensures { result ≡ byte_form mnemonic }
{
    match mnemonic {
        Some(mnemonic) if Form::of(mnemonic).has_byte_form() => {
            Some(Operation::Instr(mnemonic, Size::Byte))
        }
        _ => None,
    }
}
