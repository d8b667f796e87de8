ghost use Rattle.std.specs.Prelude.{◌≡◌, ◌<◌, ◌^◌, take, drop, IfOk, IfSome};
ghost use Rattle.device_types.specs.Access.{IsFormed};
ghost use Rattle.word_arith.specs.declared.size.Size.TheVariants.{Byte};
ghost use Rattle.text_scan.specs.{Hexadecimal.hex_bytes_of, Reader.ReadsOn, Word.words_of};
ghost use Rattle.trace_files.specs.LineGrammar.{number_of_bytes, is_even_if, fetch_in, read_in, written_in, write_in, access_by, access_in, rule_in, named_of, flag_of, bounds_of, fields_of, trace_line_of};

use crate::trace_line::TraceLine;
use device_types::{Access, Bounds, Rule};
use named_value::Named;
use text_scan::{FaultKind, Words, hex_bytes, hex_word};
use word_arith::Size;

// The last number that a step can have in a trace file.
const LAST_TRACED_STEP: u64 = 4_294_967_295;

/// The line of a step, or its first fault: word by word from the left, and then `Order` where it is
/// of another step.
#[tactic(auto, unfolding(crate::specs::LineGrammar::trace_line_of))]
pub fn read_line(text: &[u8], step: u64) -> Result<TraceLine, FaultKind>
    ensures value { result ≡ trace_line_of step (words_of text.now) }
    ensures step { IfOk result (λ line. step < 2 ^ 32) }
    ensures cpu { IfOk result (λ line. IfSome line.cpu IsFormed) }
    ensures dma { IfOk result (λ line. IfSome line.dma IsFormed) }
{
    let mut words = Words::new(text);
    words.keyword(b"t")?;
    let said = words.number(0, LAST_TRACED_STEP)?;
    let line = read_fields(&mut words)?;
    words.end()?;
    if said == step {
        Ok(line)
    } else {
        Err(FaultKind::Order)
    }
}

// What stands after the step's number.
#[tactic(auto, unfolding(crate::specs::LineGrammar::fields_of))]
fn read_fields(words: &mut Words<'_>) -> Result<TraceLine, FaultKind>
    ensures value { ReadsOn result words.new (fields_of words.old) }
    ensures cpu { IfOk result (λ line. IfSome line.cpu IsFormed) }
    ensures dma { IfOk result (λ line. IfSome line.dma IsFormed) }
{
    let kind = words.value()?;
    let pc = words.place()?;
    let cpu = read_access(words)?;
    let dma = read_access(words)?;
    let irq = read_flag(words)?;
    let asked = read_flag(words)?;
    let word = words.place()?;
    let value = words.place()?;
    let dma_value = words.place()?;
    let bounds = read_bounds(words)?;
    let exec = read_flag(words)?;
    let rule = read_rule(words)?;
    Ok(TraceLine {
        kind,
        pc,
        cpu,
        dma,
        irq,
        asked,
        word,
        value,
        dma_value,
        bounds,
        exec,
        rule,
    })
}

#[tactic(auto, unfolding(crate::specs::LineGrammar::bounds_of))]
fn read_bounds(words: &mut Words<'_>) -> Result<Bounds, FaultKind>
    ensures { ReadsOn result words.new (bounds_of words.old) }
{
    let er_min = words.place()?;
    let er_max = words.place()?;
    let or_min = words.place()?;
    let or_max = words.place()?;
    Ok(Bounds {
        er_min,
        er_max,
        or_min,
        or_max,
    })
}

#[tactic(auto, unfolding(crate::specs::LineGrammar::flag_of))]
fn read_flag(words: &mut Words<'_>) -> Result<bool, FaultKind>
    ensures { ReadsOn result words.new (flag_of words.old) }
{
    Ok(words.number(0, 1)? == 1)
}

#[tactic(auto, unfolding(crate::specs::LineGrammar::named_of))]
fn read_rule(words: &mut Words<'_>) -> Result<Option<Rule>, FaultKind>
    ensures { ReadsOn result words.new (named_of rule_in words.old) }
{
    rule_in(words.word()?)
}

#[tactic(auto, unfolding(crate::specs::LineGrammar::named_of))]
fn read_access(words: &mut Words<'_>) -> Result<Option<Access>, FaultKind>
    ensures value { ReadsOn result words.new (named_of access_in words.old) }
    ensures formed { IfOk result (λ access. IfSome access IsFormed) }
{
    access_in(words.word()?)
}

// The rule of a name, none for `-`.
fn rule_in(word: &[u8]) -> Result<Option<Rule>, FaultKind>
    ensures { result ≡ rule_in word.now }
{
    match word {
        b"-" => Ok(None),
        _ => Ok(Some(Rule::named(word).ok_or(FaultKind::Word)?)),
    }
}

fn access_in(word: &[u8]) -> Result<Option<Access>, FaultKind>
    ensures value { result ≡ access_in word.now }
    ensures formed { IfOk result (λ access. IfSome access IsFormed) }
{
    match word {
        b"-" => Ok(None),
        _ => {
            let (letter, digits) = split_at_most(word, 1);
            access_by(letter, digits)
        }
    }
}

fn access_by(letter: &[u8], digits: &[u8]) -> Result<Option<Access>, FaultKind>
    ensures value { result ≡ access_by letter.now digits.now }
    ensures formed { IfOk result (λ access. IfSome access IsFormed) }
{
    match letter {
        b"f" => fetch_in(digits),
        b"r" => read_in(Size::Word, digits),
        b"b" => read_in(Size::Byte, digits),
        b"w" => write_in(Size::Word, digits),
        b"c" => write_in(Size::Byte, digits),
        _ => Err(FaultKind::Word),
    }
}

#[tactic(auto, unfolding(crate::specs::LineGrammar::fetch_in))]
fn fetch_in(digits: &[u8]) -> Result<Option<Access>, FaultKind>
    ensures value { result ≡ fetch_in digits.now }
    ensures formed { IfOk result (λ access. IfSome access IsFormed) }
{
    match hex_word(digits) {
        Ok(place) if is_aligned(Size::Word, place) => Ok(Some(Access::Fetch(place))),
        Ok(_) => Err(FaultKind::Range),
        Err(_) => Err(FaultKind::Word),
    }
}

#[tactic(auto, unfolding(crate::specs::LineGrammar::read_in))]
fn read_in(size: Size, digits: &[u8]) -> Result<Option<Access>, FaultKind>
    ensures value { result ≡ read_in size digits.now }
    ensures formed { IfOk result (λ access. IfSome access IsFormed) }
{
    match hex_word(digits) {
        Ok(place) if is_aligned(size, place) => Ok(Some(Access::Read(place, size))),
        Ok(_) => Err(FaultKind::Range),
        Err(_) => Err(FaultKind::Word),
    }
}

// `HHHH=HHHH` or `HHHH=HH`.
#[tactic(auto, unfolding(crate::specs::LineGrammar::write_in))]
fn write_in(size: Size, digits: &[u8]) -> Result<Option<Access>, FaultKind>
    ensures value { result ≡ write_in size digits.now }
    ensures formed { IfOk result (λ access. IfSome access IsFormed) }
{
    let (place, written) = split_at_most(digits, 4);
    let (sign, number) = split_at_most(written, 1);
    let Ok(place) = hex_word(place) else {
        return Err(FaultKind::Word);
    };
    if sign != b"=".as_slice() {
        return Err(FaultKind::Word);
    }
    match written_in(size, number) {
        Ok(number) if is_aligned(size, place) => Ok(Some(Access::Write(place, size, number))),
        Ok(_) => Err(FaultKind::Range),
        Err(_) => Err(FaultKind::Word),
    }
}

// The number that a write of this size carries.
fn written_in(size: Size, digits: &[u8]) -> Result<u16, FaultKind>
    ensures value { result ≡ written_in size digits.now }
    ensures fits { IfOk result (λ number. size ≡ Byte → number < 2 ^ 8) }
{
    match size {
        Size::Word => hex_word(digits),
        Size::Byte => byte_in(digits),
    }
}

fn byte_in(digits: &[u8]) -> Result<u16, FaultKind>
    ensures value { result ≡ number_of_bytes (hex_bytes_of 1 digits.now) }
    ensures fits { IfOk result (λ number. number < 2 ^ 8) }
{
    let mut byte = [0; 1];
    hex_bytes(digits, &mut byte)?;
    Ok(u16::from(byte[0]))
}

// An access of a word has an even address.
fn is_aligned(size: Size, place: u16) -> bool
    ensures { result ≡ is_even_if size place }
{
    size == Size::Byte || place % 2 == 0
}

// The first bytes, as many as there are of so many, and those after them.
fn split_at_most(bytes: &[u8], count: usize) -> (&[u8], &[u8])
    ensures first { result.0.now ≡ take count bytes.now }
    ensures rest { result.1.now ≡ drop count bytes.now }
{
    bytes.split_at_checked(count).unwrap_or((bytes, &[]))
}
