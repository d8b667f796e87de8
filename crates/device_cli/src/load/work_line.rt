ghost use Rattle.outside_edge.specs.Sink.{Puts, CountsFaults};
ghost use Rattle.device_cli.specs.Work.{summary_line, summary_head, summary_tail};

use crate::load::LOAD_STEPS;
use crate::load::line_tally::LineCounts;
use line_buffer::LineBuffer;
use outside_edge::{Failed, Sink, put_all};

/// Puts the line of a load: its seed, the counts of its text's lines, and the text's SHA-256.
pub fn print_work_line<W: Sink>(
    seed: u64,
    counts: LineCounts,
    digest: &[u8; 32],
    sink: &mut W,
) -> Result<(), Failed>
    ensures puts { Puts W.stands sink.old sink.new (summary_line seed counts digest.now) result }
    ensures counts { CountsFaults W.faults sink.old sink.new result }
{
    print_head(seed, counts, sink)?;
    print_tail(counts, digest, sink)
}

fn print_head<W: Sink>(seed: u64, counts: LineCounts, sink: &mut W) -> Result<(), Failed>
    ensures puts { Puts W.stands sink.old sink.new (summary_head seed counts) result }
    ensures counts { CountsFaults W.faults sink.old sink.new result }
{
    let mut line = LineBuffer::new();
    line.push(b"work ");
    line.push_decimal(seed);
    line.push(b" steps ");
    line.push_decimal(LOAD_STEPS);
    line.push(b" tx ");
    line.push_decimal(counts.sends);
    line.push(b" resets ");
    line.push_decimal(counts.resets);
    put_all(sink, line.as_slice())
}

fn print_tail<W: Sink>(counts: LineCounts, digest: &[u8; 32], sink: &mut W) -> Result<(), Failed>
    ensures puts { Puts W.stands sink.old sink.new (summary_tail counts digest.now) result }
    ensures counts { CountsFaults W.faults sink.old sink.new result }
{
    let mut line = LineBuffer::new();
    line.push(b" reports ");
    line.push_decimal(counts.reports);
    line.push(b" denied ");
    line.push_decimal(counts.denials);
    line.push(b" exec ");
    line.push_decimal(counts.with_exec);
    line.push(b" text ");
    line.push_hex(digest);
    line.push(b"\n");
    put_all(sink, line.as_slice())
}
