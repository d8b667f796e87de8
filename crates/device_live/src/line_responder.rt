ghost use Rattle.std.specs.Prelude.{◌≡◌, ◌≤◌, ◌<◌, ◌+◌, option_map};
ghost use Rattle.outside_edge.specs.Sink.{CountsFaults, Puts};
ghost use Rattle.device_trace.specs.Start.{Start};
ghost use Rattle.device_live.specs.{Answer.refusal_line, Conversation.answer_to, Faults.halt_of, Life.Life};

use crate::line_fault::LineFault;
use crate::living::Living;
use device_types::TraceFlag;
use hmac_core::Digest32;
use line_buffer::LineBuffer;
use named_value::Named;
use outside_edge::{BufferedSink, Failed, Sink, put_all};
use source_server::{Halt, LineResponder};
use std::alloc::AllocError;
use text_scan::{FaultKind, is_passed_over};

// Puts `refused N K`.
fn print_refusal<W: Sink>(number: u64, kind: FaultKind, sink: &mut W) -> Result<(), Failed>
    ensures puts { Puts W.stands sink.old sink.new (refusal_line number kind) result }
    ensures counts { CountsFaults W.faults sink.old sink.new result }
{
    let mut line = LineBuffer::new();
    line.push(b"refused");
    line.add_decimal(number);
    line.add_text(kind.name().as_bytes());
    line.push(b"\n");
    put_all(sink, line.as_slice())
}

impl<D: Digest32, G: TraceFlag> Living<D, G> {
    ghost use Rattle.device_live.specs.Living.{AnswersNumbered, AnswersSo, LivingStandsFor};

    // Answers a line, or gives its fault; `None` is one that is too long.
    fn answer_short<W: Sink>(&mut self, line: Option<&[u8]>, sink: &mut W) -> Result<(), LineFault>
        ensures answers { (start : Start) (life : Life)
            → LivingStandsFor D.hash G.flag self.old start life
            → AnswersSo D.hash G.flag W.Sink sink.old sink.new self.new start life
            result (answer_to start life (option_map (λ line. line.now) line.entry)) }
        ensures rises { W.faults sink.old ≤ W.faults sink.new }
        ensures lines { self.new.lines ≡ self.old.lines }
    {
        let Some(line) = line else {
            return Err(LineFault::Kind(FaultKind::TooLong));
        };
        if is_passed_over(line) {
            Ok(())
        } else {
            self.answer_line(line, sink)
        }
    }

    // Answers a line, one with a fault by a refusal.
    fn answer_numbered<W: Sink>(
        &mut self,
        line: Option<&[u8]>,
        sink: &mut W,
    ) -> Result<(), Halt<AllocError>>
        ensures answers { (start : Start) (life : Life)
            → LivingStandsFor D.hash G.flag self.old start life
            → AnswersNumbered D.hash G.flag W.Sink sink.old sink.new self.new start life
            (answer_to start life (option_map (λ line. line.now) line.entry)) result }
        ensures rises { W.faults sink.old ≤ W.faults sink.new }
        ensures lines { self.old.lines < 18446744073709551615
            → self.new.lines ≡ self.old.lines + 1 }
    {
        self.lines = self.lines.saturating_add(1);
        let number = self.lines;
        match self.answer_short(line, sink) {
            Ok(()) => Ok(()),
            Err(LineFault::Kind(kind)) => halt_on_fault(print_refusal(number, kind, sink)),
            Err(LineFault::Memory(error)) => Err(Halt::Own(error)),
            Err(LineFault::Write(_)) => Err(Halt::Write),
        }
    }
}

// What a fault of the sink is to whoever serves the lines.
fn halt_on_fault(put: Result<(), Failed>) -> Result<(), Halt<AllocError>>
    ensures { result ≡ halt_of put }
{
    match put {
        Ok(()) => Ok(()),
        Err(Failed) => Err(Halt::Write),
    }
}

impl<D: Digest32, G: TraceFlag, W: Sink> LineResponder<BufferedSink<W>> for Living<D, G> {
    ghost use Rattle.std.specs.Prelude.{◌≤◌};
    ghost use Rattle.device_live.specs.LineResponder.{LiveStart, live_promise};

    type Own = AllocError;

    ghost Start = { LiveStart W };

    ghost promise = { live_promise D.hash G.flag W.Sink };

    ghost since = { λ old new. W.faults old.edge.sink ≤ W.faults new.edge.sink };

    fn answer(
        &mut self,
        line: Option<&[u8]>,
        sink: &mut BufferedSink<W>,
    ) -> Result<(), Halt<AllocError>> {
        self.answer_numbered(line, sink)
    }

    fn settle(&mut self, sink: &mut BufferedSink<W>) -> Result<(), Halt<AllocError>> {
        halt_on_fault(sink.flush())
    }
}
