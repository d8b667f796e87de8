ghost use Rattle.std.specs.Prelude.{◌≡◌, ◌+◌, ◌≤◌, ◌++◌, ◌∷◌, ℕ, List, [], length, Option, option_map};
ghost use Rattle.outside_edge.specs.Sink.{CountsFaults, Puts};
ghost use Rattle.printed_lines.specs.Line.{with_pieces, line_of};
ghost use Rattle.line_buffer.specs.declared.line_buffer.TheConstants.{ROOM};
ghost use Rattle.desk_cli.specs.StateText.{desk_pieces, form_for, form_name, last_pieces, moves_pieces, number_piece, state_line, states_text};

use desk_database::answer_text;
use desk_memory::{Answer, Entry};
use line_buffer::LineBuffer;
use outside_edge::{Failed, Sink, put_all};

/// Puts a line for each entry.
pub fn put_states<W: Sink>(entries: &[Entry], sink: &mut W) -> Result<(), Failed>
    ensures puts { Puts W.stands sink.old sink.new (states_text entries.now) result }
    ensures counts { CountsFaults W.faults sink.old sink.new result }
{
    for entry in entries {
        put_state(entry, sink)?;
    }
    Ok(())
}

// Puts the line of an entry.
fn put_state<W: Sink>(entry: &Entry, sink: &mut W) -> Result<(), Failed>
    ensures puts { Puts W.stands sink.old sink.new (state_line entry.now) result }
    ensures counts { CountsFaults W.faults sink.old sink.new result }
{
    put_names(entry.name(), entry.home().gone, sink)?;
    put_all(sink, state_words(entry).as_slice())
}

// Puts what a line says up to the device's name, or to the desk where it is gone to one.
fn put_names<W: Sink>(name: &[u8], gone: Option<&[u8]>, sink: &mut W) -> Result<(), Failed>
    ensures puts { let to : Option (List ℕ) = option_map (λ desk. desk.now) gone.entry in
        Puts W.stands sink.old sink.new
        (with_pieces (form_name (form_for to)) (name.now ∷ desk_pieces to)) result }
    ensures counts { CountsFaults W.faults sink.old sink.new result }
{
    match gone {
        None => put_name(b"state2 ", name, sink),
        Some(desk) => {
            put_name(b"moved ", name, sink)?;
            put_name(b" to ", desk, sink)
        }
    }
}

// Puts a name behind a text.
fn put_name<W: Sink>(front: &[u8], name: &[u8], sink: &mut W) -> Result<(), Failed>
    ensures puts { Puts W.stands sink.old sink.new (front.now ++ name.now) result }
    ensures counts { CountsFaults W.faults sink.old sink.new result }
{
    put_all(sink, front)?;
    put_all(sink, name)
}

// What the line of an entry says behind the names.
fn state_words(entry: &Entry) -> LineBuffer
    ensures { result ≡ line_of [] (moves_pieces entry.now) }
{
    let state = entry.state();
    let mut line = LineBuffer::new();
    line.add_text(b"moves");
    line.add_decimal(u64::from(entry.home().moves));
    line.add_text(b"key");
    line.add_digits(entry.mark());
    line.add_text(b"count");
    line.add_decimal(u64::from(state.count));
    line.add_text(b"outstanding");
    add_number(&mut line, state.outstanding);
    line.add_text(b"last");
    add_last(&mut line, state.last);
    line.push(b"\n");
    line
}

// A number, or `none`.
fn add_number(line: &mut LineBuffer, number: Option<u32>)
    requires { length line.old + 21 ≤ ROOM }
    ensures text { line.new ≡ line.old ++ 32 ∷ number_piece number }
    ensures len { length line.new ≤ length line.old + 21 }
{
    match number {
        None => line.add_text(b"none"),
        Some(number) => line.add_decimal(u64::from(number)),
    }
}

// The last number of a line and its answer, or `none`.
#[tactic(auto, using(crate::proofs::StateWords::answer_text_pieces))]
fn add_last(line: &mut LineBuffer, last: Option<(u32, Answer)>)
    requires { length line.old + 50 ≤ ROOM }
    ensures text { line.new ≡ with_pieces line.old (last_pieces last) }
    ensures len { length line.new ≤ length line.old + 50 }
{
    match last {
        None => line.add_text(b"none"),
        Some((number, answer)) => {
            line.add_decimal(u64::from(number));
            line.add_text(answer_text(answer).as_slice());
        }
    }
}
