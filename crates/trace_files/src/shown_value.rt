ghost use Rattle.std.specs.Prelude.{◌≡◌, ◌≤◌, length};
ghost use Rattle.word_arith.specs.Number.{bit_of};
ghost use Rattle.trace_files.specs.WireValue.{access_data, access_letter, access_place, of_access, rule_number, text_number, wire_value};

use crate::sample::Sample;
use crate::wire::Wire;
use device_types::{Access, Rule};
use named_value::Named;
use word_arith::Size;

/// What a wire shows of a step, `None` where nothing drives it.
pub fn wire_value(wire: Wire, sample: &Sample) -> Option<u32>
    ensures { result ≡ wire_value wire sample.now }
{
    let line = &sample.line;
    match wire {
        Wire::Pc => Some(u32::from(line.pc)),
        Wire::StepKind => Some(text_number(line.kind.name().as_bytes())),
        Wire::Irq => Some(u32::from(line.irq)),
        Wire::Asked => Some(u32::from(line.asked)),
        Wire::BrokenRule => Some(rule_number(line.rule)),
        Wire::CpuOp => letter(line.cpu),
        Wire::CpuAddress => place(line.cpu),
        Wire::CpuData => data(line.value, line.cpu),
        Wire::FetchWord => Some(u32::from(line.word)),
        Wire::DmaOp => letter(line.dma),
        Wire::DmaAddress => place(line.dma),
        Wire::DmaData => data(line.dma_value, line.dma),
        Wire::ErMin => Some(u32::from(line.bounds.er_min)),
        Wire::ErMax => Some(u32::from(line.bounds.er_max)),
        Wire::OrMin => Some(u32::from(line.bounds.or_min)),
        Wire::OrMax => Some(u32::from(line.bounds.or_max)),
        Wire::Exec => Some(u32::from(line.exec)),
        Wire::Sp => Some(u32::from(sample.state.registers[1])),
        Wire::Sr => Some(u32::from(sample.state.registers[2])),
        Wire::R4 => Some(u32::from(sample.state.registers[4])),
        Wire::R5 => Some(u32::from(sample.state.registers[5])),
        Wire::R6 => Some(u32::from(sample.state.registers[6])),
        Wire::R7 => Some(u32::from(sample.state.registers[7])),
        Wire::R8 => Some(u32::from(sample.state.registers[8])),
        Wire::R9 => Some(u32::from(sample.state.registers[9])),
        Wire::R10 => Some(u32::from(sample.state.registers[10])),
        Wire::R11 => Some(u32::from(sample.state.registers[11])),
        Wire::R12 => Some(u32::from(sample.state.registers[12])),
        Wire::R13 => Some(u32::from(sample.state.registers[13])),
        Wire::R14 => Some(u32::from(sample.state.registers[14])),
        Wire::R15 => Some(u32::from(sample.state.registers[15])),
        Wire::Aux => Some(u32::from(sample.state.aux)),
        Wire::TimerFlag => Some(u32::from(sample.state.timer_flag)),
        Wire::Pins => Some(u32::from(sample.ports.pins)),
        Wire::Sent => sample.ports.sent.map(u32::from),
        Wire::Received => sample.ports.received.map(u32::from),
    }
}

// The characters of a word as one number, 8 bits each.
fn text_number(word: &[u8]) -> u32
    requires { length word.now ≤ 4 }
    ensures { result ≡ text_number word.now }
{
    match word {
        [] => 0,
        [a] => u32::from(*a),
        [a, b] => u32::from_be_bytes([0, 0, *a, *b]),
        [a, b, c] => u32::from_be_bytes([0, *a, *b, *c]),
        [a, b, c, d] => u32::from_be_bytes([*a, *b, *c, *d]),
        _ => unreachable!(),
    }
}

fn rule_number(rule: Option<Rule>) -> u32
    ensures { result ≡ rule_number rule }
{
    match rule {
        None => 0,
        Some(rule) => text_number(rule.name().as_bytes()),
    }
}

fn letter(access: Option<Access>) -> Option<u32>
    ensures { result ≡ of_access access_letter access }
{
    let letter = match access? {
        Access::Fetch(_) => b'f',
        Access::Read(_, Size::Word) => b'r',
        Access::Read(_, Size::Byte) => b'b',
        Access::Write(_, Size::Word, _) => b'w',
        Access::Write(_, Size::Byte, _) => b'c',
    };
    Some(u32::from(letter))
}

fn place(access: Option<Access>) -> Option<u32>
    ensures { result ≡ of_access access_place access }
{
    let place = match access? {
        Access::Fetch(place) | Access::Read(place, _) | Access::Write(place, _, _) => place,
    };
    Some(u32::from(place))
}

// What was written, else the value that was read.
fn data(value: u16, access: Option<Access>) -> Option<u32>
    ensures { result ≡ of_access (access_data value) access }
{
    let data = match access? {
        Access::Fetch(_) | Access::Read(..) => value,
        Access::Write(_, _, number) => number,
    };
    Some(u32::from(data))
}
