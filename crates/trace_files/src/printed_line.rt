ghost use Rattle.std.specs.Prelude.{◌≡◌, ◌≤◌, ◌+◌, ◌++◌, ◌∷◌, length, IfSome};
ghost use Rattle.device_types.specs.Access.{IsFormed};
ghost use Rattle.outside_edge.specs.Sink.{Puts, CountsFaults};
ghost use Rattle.printed_lines.specs.Line.{word_digits};
ghost use Rattle.trace_files.specs.LineText.{access_word, rule_word, trace_line};

use crate::trace_line::TraceLine;
use device_types::{Access, Rule};
use line_buffer::LineBuffer;
use named_value::Named;
use outside_edge::{Failed, Sink, put_all};
use word_arith::Size;

/// Puts the line of a step: `t S K P C D I X W V U B1 B2 B3 B4 E R`.
pub fn print_line<W: Sink>(step: u64, line: &TraceLine, sink: &mut W) -> Result<(), Failed>
    requires cpu { IfSome line.now.cpu IsFormed }
    requires dma { IfSome line.now.dma IsFormed }
    ensures puts { Puts W.stands sink.old sink.new (trace_line step line.now) result }
    ensures counts { CountsFaults W.faults sink.old sink.new result }
{
    let mut text = LineBuffer::new();
    text.push(b"t");
    text.add_decimal(step);
    text.add_text(line.kind.name().as_bytes());
    text.add_word(line.pc);
    add_access(&mut text, line.cpu);
    add_access(&mut text, line.dma);
    text.add_flag(line.irq);
    text.add_flag(line.asked);
    text.add_word(line.word);
    text.add_word(line.value);
    text.add_word(line.dma_value);
    text.add_word(line.bounds.er_min);
    text.add_word(line.bounds.er_max);
    text.add_word(line.bounds.or_min);
    text.add_word(line.bounds.or_max);
    text.add_flag(line.exec);
    text.add_text(rule_word(line.rule));
    text.push(b"\n");
    put_all(sink, text.as_slice())
}

fn add_access(text: &mut LineBuffer, access: Option<Access>)
    requires room { length text.old ≤ 140 }
    requires formed { IfSome access IsFormed }
    ensures text { text.new ≡ text.old ++ 32 ∷ access_word access }
    ensures len { length text.new ≤ length text.old + 11 }
{
    match access {
        None => text.push(b" -"),
        Some(Access::Fetch(place)) => push_place(text, b" f", place),
        Some(Access::Read(place, Size::Word)) => push_place(text, b" r", place),
        Some(Access::Read(place, Size::Byte)) => push_place(text, b" b", place),
        Some(Access::Write(place, Size::Word, number)) => {
            push_place(text, b" w", place);
            text.push(b"=");
            text.push_word(number);
        }
        Some(Access::Write(place, Size::Byte, number)) => {
            push_place(text, b" c", place);
            text.push(b"=");
            text.push_byte(number as u8);
        }
    }
}

// A space, a letter and an address.
fn push_place(text: &mut LineBuffer, letter: &[u8], place: u16)
    requires room { length text.old ≤ 150 }
    requires two { length letter.now ≡ 2 }
    ensures text { text.new ≡ text.old ++ (letter.now ++ word_digits place) }
    ensures len { length text.new ≡ length text.old + 6 }
{
    text.push(letter);
    text.push_word(place);
}

/// The name of a rule, `-` for none.
pub fn rule_word(rule: Option<Rule>) -> &'static [u8]
    ensures word { result.now ≡ rule_word rule }
    ensures len { length result.now ≤ 2 }
{
    match rule {
        None => b"-",
        Some(rule) => rule.name().as_bytes(),
    }
}
