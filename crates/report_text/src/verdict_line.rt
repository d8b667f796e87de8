ghost use Rattle.outside_edge.specs.Sink.{Puts, CountsFaults};
ghost use Rattle.report_text.specs.VerdictLine.{verdict_line};

use line_buffer::LineBuffer;
use named_value::Named;
use outside_edge::{Failed, Sink, put_all};
use report_verifier::Verdict;

/// Puts `verdict I V`. The number is that of the verdict's report, from 1.
pub fn print_verdict<W: Sink>(number: u64, decision: Verdict, sink: &mut W) -> Result<(), Failed>
    ensures puts { Puts W.stands sink.old sink.new (verdict_line number decision) result }
    ensures counts { CountsFaults W.faults sink.old sink.new result }
{
    let mut line = LineBuffer::new();
    line.push(b"verdict");
    line.add_decimal(number);
    line.add_text(decision.name().as_bytes());
    line.push(b"\n");
    put_all(sink, line.as_slice())
}
