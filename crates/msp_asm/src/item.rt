ghost use Rattle.std.specs.Prelude.{◌≡◌, ◌<◌, ◌≤◌, length};
ghost use Rattle.msp_decode.specs.{Completion.{source_words, dest_words, words_of}, Head.head_of};
ghost use Rattle.mem_map.specs.Image.{byte_in};
ghost use Rattle.msp_asm.specs.Item.{FIRST_VECTOR, word_in, instruction_item, item_at, item_size};

use device_types::VECTORS;
use mem_map::Image;
use msp_decode::{Dest, Instr, Source, complete, decode, extensions};

/// What stands at a place of an image.
#[derive(Clone, Copy, Debug, PartialEq, Eq)]
pub enum Item {
    Byte(u8),
    Word(u16),
    Instruction(Instr),
}

// The word at a place, where the image has both of its bytes.
fn word_in(image: &Image, place: u16) -> Option<u16>
    requires { place ≤ 0xFFFE }
    ensures { result ≡ word_in (byte_in image.now) place }
{
    let low = image.get(place)?;
    let high = image.get(place + 1)?;
    Some(u16::from_le_bytes([low, high]))
}

// The instruction that a word below the vectors spells with the words after it.
fn instruction_item(image: &Image, place: u16, word: u16) -> Item
    requires { place < FIRST_VECTOR }
    ensures { result ≡ instruction_item (byte_in image.now) place word (head_of word) }
{
    let Some(head) = decode(word) else {
        return Item::Word(word);
    };
    match (
        extensions(&head),
        word_in(image, place + 2),
        word_in(image, place + 4),
    ) {
        (0, _, _) => Item::Instruction(complete(&head, 0, 0)),
        (1, Some(first), _) => Item::Instruction(complete(&head, first, 0)),
        (2, Some(first), Some(second)) => Item::Instruction(complete(&head, first, second)),
        _ => Item::Word(word),
    }
}

// How many extension words a source has.
fn source_words(source: Source) -> u16
    ensures value { result ≡ length (source_words source) }
    ensures most { result ≤ 1 }
{
    match source {
        Source::Indexed(..) | Source::Immediate(_) => 1,
        Source::Reg(_) | Source::Indirect(_) | Source::IndirectInc(_) | Source::Constant(_) => 0,
    }
}

// How many extension words a destination has.
fn dest_words(dest: Dest) -> u16
    ensures value { result ≡ length (dest_words dest) }
    ensures most { result ≤ 1 }
{
    match dest {
        Dest::Indexed(..) => 1,
        Dest::Reg(_) => 0,
    }
}

// How many words an instruction has.
fn word_count(instr: &Instr) -> u16
    ensures value { result ≡ length (words_of instr.now) }
    ensures most { result ≤ 3 }
{
    match *instr {
        Instr::Two(_, _, source, dest) => 1 + source_words(source) + dest_words(dest),
        Instr::One(_, _, source) => 1 + source_words(source),
        Instr::Reti | Instr::Jump(..) => 1,
    }
}

impl Item {
    /// The item at a place, `None` where the image has no byte there.
    pub fn at(image: &Image, place: u16) -> Option<Item>
        ensures { result ≡ item_at (byte_in image.now) place }
    {
        let byte = image.get(place)?;
        if place % 2 != 0 {
            return Some(Item::Byte(byte));
        }
        Some(match word_in(image, place) {
            None => Item::Byte(byte),
            Some(word) if place >= VECTORS.first => Item::Word(word),
            Some(word) => instruction_item(image, place, word),
        })
    }

    /// How many bytes the item is of.
    pub fn size(&self) -> u16
        ensures { result ≡ item_size self.now }
    {
        match *self {
            Item::Byte(_) => 1,
            Item::Word(_) => 2,
            Item::Instruction(instr) => 2 * word_count(&instr),
        }
    }
}
