ghost use Rattle.std.specs.Prelude.{◌≡◌, ◌≤◌, ◌+◌, length};
ghost use Rattle.outside_edge.specs.Sink.{Puts, CountsFaults};
ghost use Rattle.printed_lines.specs.Line.{with_pieces};
ghost use Rattle.trace_files.specs.AuditText.{audit_text, clean_line, offence_line, offence_pieces};

use crate::audited::Audited;
use crate::offence::Offence;
use crate::printed_line::rule_word;
use line_buffer::LineBuffer;
use outside_edge::{Failed, Sink, put_all};

/// Puts `clean N`, or `offence S rule R` or `offence S exec E` with the right rule or value.
pub fn print_audited<W: Sink>(audited: &Audited, sink: &mut W) -> Result<(), Failed>
    ensures puts { Puts W.stands sink.old sink.new (audit_text audited.now) result }
    ensures counts { CountsFaults W.faults sink.old sink.new result }
{
    match audited.offence {
        None => print_clean(audited.lines, sink),
        Some((step, offence)) => print_offence(step, offence, sink),
    }
}

fn print_clean<W: Sink>(lines: u64, sink: &mut W) -> Result<(), Failed>
    ensures puts { Puts W.stands sink.old sink.new (clean_line lines) result }
    ensures counts { CountsFaults W.faults sink.old sink.new result }
{
    let mut line = LineBuffer::new();
    line.push(b"clean");
    line.add_decimal(lines);
    line.push(b"\n");
    put_all(sink, line.as_slice())
}

fn print_offence<W: Sink>(step: u64, offence: Offence, sink: &mut W) -> Result<(), Failed>
    ensures puts { Puts W.stands sink.old sink.new (offence_line step offence) result }
    ensures counts { CountsFaults W.faults sink.old sink.new result }
{
    let mut line = LineBuffer::new();
    line.push(b"offence");
    line.add_decimal(step);
    add_right(&mut line, offence);
    line.push(b"\n");
    put_all(sink, line.as_slice())
}

// What would be right.
fn add_right(line: &mut LineBuffer, offence: Offence)
    requires { length line.old ≤ 32 }
    ensures text { line.new ≡ with_pieces line.old (offence_pieces offence) }
    ensures len { length line.new ≤ length line.old + 8 }
{
    match offence {
        Offence::RuleIs(rule) => {
            line.add_text(b"rule");
            line.add_text(rule_word(rule));
        }
        Offence::ExecIs(exec) => {
            line.add_text(b"exec");
            line.add_flag(exec);
        }
    }
}
