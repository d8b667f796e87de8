ghost use Rattle.std.specs.{Prelude.{◌≡◌, ◌≤◌, ◌+◌, ◌++◌, true, false, length, None, Some, option_copied}, Fmt.digits};
ghost use Rattle.outside_edge.specs.Sink.{Puts, CountsFaults};
ghost use Rattle.line_buffer.specs.declared.line_buffer.TheConstants.{ROOM};
ghost use Rattle.trace_files.specs.{Wire.{flag_wires, other_wires, port_wires, register_wires, state_wires, wires}, WaveText.{change_of, change_text, changes_text, digits_text, dump_text, is_any_told, is_told, next_text, step_text, time_text, told_text, wires_text}};

use crate::sample::Sample;
use crate::shown_value::wire_value;
use crate::wire::{LINE_WIRES, OTHER_WIRES, Wire};
use line_buffer::{LineBuffer, flag_digit};
use outside_edge::{Failed, Sink, put_all};

/// Puts what a step changes, after the step before, if there is one.
pub fn print_step<W: Sink>(
    step: u64,
    last: Option<&Sample>,
    now: &Sample,
    sink: &mut W,
) -> Result<(), Failed>
    ensures puts { Puts W.stands sink.old sink.new
        (step_text step (option_copied last.entry) now.now) result }
    ensures counts { CountsFaults W.faults sink.old sink.new result }
{
    match last {
        None => print_first(step, now, sink),
        Some(last) => print_next(step, last, now, sink),
    }
}

/// Puts a time, and the values that are told.
pub fn print_told<W: Sink>(
    step: u64,
    last: Option<&Sample>,
    now: &Sample,
    sink: &mut W,
) -> Result<(), Failed>
    ensures puts { Puts W.stands sink.old sink.new
        (told_text step (option_copied last.entry) now.now) result }
    ensures counts { CountsFaults W.faults sink.old sink.new result }
{
    print_time(step, sink)?;
    print_changes(last, now, sink)
}

fn print_first<W: Sink>(step: u64, now: &Sample, sink: &mut W) -> Result<(), Failed>
    ensures puts { Puts W.stands sink.old sink.new (step_text step None now.now) result }
    ensures counts { CountsFaults W.faults sink.old sink.new result }
{
    print_time(step, sink)?;
    print_dump(now, sink)
}

// Puts all values.
fn print_dump<W: Sink>(now: &Sample, sink: &mut W) -> Result<(), Failed>
    ensures puts { Puts W.stands sink.old sink.new (dump_text now.now) result }
    ensures counts { CountsFaults W.faults sink.old sink.new result }
{
    put_all(sink, b"$dumpvars\n")?;
    print_changes(None, now, sink)?;
    put_all(sink, b"$end\n")
}

// Puts what a step after another one changes, if it changes anything.
fn print_next<W: Sink>(step: u64, last: &Sample, now: &Sample, sink: &mut W) -> Result<(), Failed>
    ensures puts { Puts W.stands sink.old sink.new (next_text step last.now now.now) result }
    ensures counts { CountsFaults W.faults sink.old sink.new result }
{
    if has_change(Some(last), now) {
        print_told(step, Some(last), now, sink)
    } else {
        Ok(())
    }
}

fn print_time<W: Sink>(step: u64, sink: &mut W) -> Result<(), Failed>
    ensures puts { Puts W.stands sink.old sink.new (time_text step) result }
    ensures counts { CountsFaults W.faults sink.old sink.new result }
{
    let mut text = LineBuffer::new();
    text.push(b"#");
    text.push_decimal(step);
    text.push(b"\n");
    put_all(sink, text.as_slice())
}

// Puts the values that are others than those of the step before; all, where there is none.
fn print_changes<W: Sink>(last: Option<&Sample>, now: &Sample, sink: &mut W) -> Result<(), Failed>
    ensures puts { Puts W.stands sink.old sink.new
        (changes_text (option_copied last.entry) now.now) result }
    ensures counts { CountsFaults W.faults sink.old sink.new result }
{
    print_wires(&LINE_WIRES, last, now, sink)?;
    if has_same_others(last, now) {
        Ok(())
    } else {
        print_wires(&OTHER_WIRES, last, now, sink)
    }
}

// Whether the step before shows the same beside its line.
fn has_same_others(last: Option<&Sample>, now: &Sample) -> bool
    ensures { result ≡ true → is_any_told (option_copied last.entry) now.now other_wires ≡ false }
{
    match last {
        None => false,
        Some(last) => has_same_state(last, now) && has_same_ports(last, now),
    }
}

fn has_same_state(last: &Sample, now: &Sample) -> bool
    ensures { result ≡ true → is_any_told (Some last.now) now.now state_wires ≡ false }
{
    has_same_registers(last, now) && has_same_flags(last, now)
}

// PC is not compared: it is another at each boundary, and has no wire among the registers'.
fn has_same_registers(last: &Sample, now: &Sample) -> bool
    ensures { result ≡ true → is_any_told (Some last.now) now.now register_wires ≡ false }
{
    last.state.registers[1..] == now.state.registers[1..]
}

#[tactic(auto, unfolding(crate::specs::WaveText::is_any_told))]
fn has_same_flags(last: &Sample, now: &Sample) -> bool
    ensures { result ≡ true → is_any_told (Some last.now) now.now flag_wires ≡ false }
{
    last.state.aux == now.state.aux && last.state.timer_flag == now.state.timer_flag
}

#[tactic(auto, unfolding(crate::specs::WaveText::is_any_told))]
fn has_same_ports(last: &Sample, now: &Sample) -> bool
    ensures { result ≡ true → is_any_told (Some last.now) now.now port_wires ≡ false }
{
    last.ports == now.ports
}

#[tactic(auto, unfolding(crate::specs::WaveText::wires_text))]
fn print_wires<W: Sink>(
    wires: &[Wire],
    last: Option<&Sample>,
    now: &Sample,
    sink: &mut W,
) -> Result<(), Failed>
    ensures puts { Puts W.stands sink.old sink.new
        (wires_text (option_copied last.entry) now.now wires.now) result }
    ensures counts { CountsFaults W.faults sink.old sink.new result }
{
    for wire in wires {
        print_if_told(*wire, last, now, sink)?;
    }
    Ok(())
}

fn print_if_told<W: Sink>(
    wire: Wire,
    last: Option<&Sample>,
    now: &Sample,
    sink: &mut W,
) -> Result<(), Failed>
    ensures puts { Puts W.stands sink.old sink.new
        (change_of (option_copied last.entry) now.now wire) result }
    ensures counts { CountsFaults W.faults sink.old sink.new result }
{
    if is_told(last, now, wire) {
        print_change(wire, wire_value(wire, now), sink)
    } else {
        Ok(())
    }
}

fn has_change(last: Option<&Sample>, now: &Sample) -> bool
    ensures { result ≡ is_any_told (option_copied last.entry) now.now wires }
{
    is_any_told(&LINE_WIRES, last, now)
        || (!has_same_others(last, now) && is_any_told(&OTHER_WIRES, last, now))
}

#[tactic(auto, unfolding(crate::specs::WaveText::is_any_told))]
fn is_any_told(wires: &[Wire], last: Option<&Sample>, now: &Sample) -> bool
    ensures { result ≡ is_any_told (option_copied last.entry) now.now wires.now }
{
    wires.iter().any(|wire| is_told(last, now, *wire))
}

fn is_told(last: Option<&Sample>, now: &Sample, wire: Wire) -> bool
    ensures { result ≡ is_told (option_copied last.entry) now.now wire }
{
    match last {
        None => true,
        Some(last) => wire_value(wire, last) != wire_value(wire, now),
    }
}

// Puts the value of a wire.
fn print_change<W: Sink>(wire: Wire, value: Option<u32>, sink: &mut W) -> Result<(), Failed>
    ensures puts { Puts W.stands sink.old sink.new (change_text wire value) result }
    ensures counts { CountsFaults W.faults sink.old sink.new result }
{
    let mut text = LineBuffer::new();
    if wire.is_bit() {
        push_value(&mut text, value);
    } else {
        text.push(b"b");
        push_value(&mut text, value);
        text.push(b" ");
    }
    text.push(&[wire.code(), b'\n']);
    put_all(sink, text.as_slice())
}

// Binary without leading zeros, or `z` where nothing drives the wire.
fn push_value(text: &mut LineBuffer, value: Option<u32>)
    requires { length text.old ≤ 1 }
    ensures text { text.new ≡ text.old ++ digits_text value }
    ensures len { length text.new ≤ length text.old + 32 }
{
    match value {
        None => text.push(b"z"),
        Some(number) => push_binary(text, number),
    }
}

fn push_binary(text: &mut LineBuffer, number: u32)
    requires { length text.old ≤ 1 }
    ensures text { text.new ≡ text.old ++ digits 2 false number }
    ensures len { length text.new ≤ length text.old + 32 }
{
    push_bits(text, number);
}

fn push_bits(text: &mut LineBuffer, number: u32)
    requires { length text.old + length (digits 2 false number) ≤ ROOM }
    ensures { text.new ≡ text.old ++ digits 2 false number }
{
    if number > 1 {
        push_bits(text, number / 2);
    }
    text.push(flag_digit(number % 2 == 1));
}
