ghost use Rattle.std.specs.Prelude.{◌≤◌};
ghost use Rattle.outside_edge.specs.Sink.{CountsFaults, Puts};
ghost use Rattle.device_core.specs.Device.{LiveStandsFor};
ghost use Rattle.device_trace.specs.Start.{Start};
ghost use Rattle.device_live.specs.{Answer.{memory_line, registers_line, memory_text, registers_text}, Life.{Life, play_lived}};

use debug_walk::live_bytes;
use device_core::Live;
use device_types::TraceFlag;
use hmac_core::Digest32;
use line_buffer::LineBuffer;
use outside_edge::{Failed, Sink, put_all};
use report_text::print_digits;

/// Puts `registers H4 ..`: the sixteen registers at the last boundary.
pub fn print_registers<D: Digest32, G: TraceFlag, W: Sink>(
    live: &Live<D, G>,
    sink: &mut W,
) -> Result<(), Failed>
    ensures puts { (start : Start) (life : Life)
        → LiveStandsFor D.hash G.flag live.now start (play_lived life)
        → Puts W.stands sink.old sink.new (registers_line start life) result }
    ensures counts { CountsFaults W.faults sink.old sink.new result }
{
    print_words(live.registers(), sink)
}

fn print_words<W: Sink>(registers: &[u16; 16], sink: &mut W) -> Result<(), Failed>
    ensures puts { Puts W.stands sink.old sink.new (registers_text registers.now) result }
    ensures counts { CountsFaults W.faults sink.old sink.new result }
{
    let mut line = LineBuffer::new();
    line.push(b"registers");
    for register in registers {
        line.add_word(*register);
    }
    line.push(b"\n");
    put_all(sink, line.as_slice())
}

/// Puts `memory H4 HH..`: the bytes from a place on that may be shown, `-` where that is none.
pub fn print_memory<D: Digest32, G: TraceFlag, W: Sink>(
    live: &Live<D, G>,
    place: u16,
    count: u64,
    sink: &mut W,
) -> Result<(), Failed>
    requires { count ≤ 2048 }
    ensures puts { (start : Start) (life : Life)
        → LiveStandsFor D.hash G.flag live.now start (play_lived life)
        → Puts W.stands sink.old sink.new (memory_line start life place count) result }
    ensures counts { CountsFaults W.faults sink.old sink.new result }
{
    print_bytes(
        place,
        &live_bytes(live, u32::from(place), count as u32),
        sink,
    )
}

fn print_bytes<W: Sink>(place: u16, bytes: &[u8], sink: &mut W) -> Result<(), Failed>
    ensures puts { Puts W.stands sink.old sink.new (memory_text place bytes.now) result }
    ensures counts { CountsFaults W.faults sink.old sink.new result }
{
    let mut head = LineBuffer::new();
    head.push(b"memory");
    head.add_word(place);
    if bytes.is_empty() {
        head.add_text(b"-");
        head.push(b"\n");
        return put_all(sink, head.as_slice());
    }
    head.push(b" ");
    print_digits(head.as_slice(), bytes, sink)?;
    put_all(sink, b"\n")
}
