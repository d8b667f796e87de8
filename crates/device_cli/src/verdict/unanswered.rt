ghost use Rattle.std.specs.{Prelude.{◌≡◌, ◌<◌, ◌^◌, ◌&&◌, IfOk, IfSome, List, Some}, Option.is_none};
ghost use Rattle.outside_edge.specs.Sink.{Puts, CountsFaults};
ghost use Rattle.report_verifier.specs.declared.verdict.Verdict.{Verdict};
ghost use Rattle.device_trace.specs.Text.{some_line};
ghost use Rattle.device_cli.specs.{Row.ending_of, Verdicts.{Counts, all_accept}, Unanswered.{unanswered_if, unanswered_line}};

use crate::ending::Ending;
use crate::verdict::tally::Tally;
use line_buffer::LineBuffer;
use outside_edge::{Failed, Sink, put_all};
use report_verifier::Policy;

// Puts `unanswered N` of request `i`, from 0.
fn print_line<W: Sink>(i: usize, sink: &mut W) -> Result<(), Failed>
    requires { i < 2 ^ 63 }
    ensures puts { Puts W.stands sink.old sink.new (unanswered_line i) result }
    ensures counts { CountsFaults W.faults sink.old sink.new result }
{
    let mut line = LineBuffer::new();
    line.push(b"unanswered");
    line.add_decimal(i as u64 + 1);
    line.push(b"\n");
    put_all(sink, line.as_slice())
}

// The first request, from 0, that is not answered, where all have to be.
fn first_unanswered(all: bool, policy: &Policy, tally: &Tally) -> Option<usize>
    ensures first { (decisions : List Verdict) → Counts decisions tally.now
        → result ≡ unanswered_if all policy.now.requests decisions }
    ensures place { IfSome result (λ i. i ≡ tally.now.leading_accepts) }
{
    if all {
        tally.first_unanswered(policy)
    } else {
        None
    }
}

/// Ends a text with verdicts: where all requests of the policy have to be answered, by the line of
/// the first that is not.
pub fn end_verdicts<W: Sink>(
    all: bool,
    policy: &Policy,
    tally: &Tally,
    sink: &mut W,
) -> Result<Ending, Failed>
    requires { tally.now.leading_accepts < 2 ^ 63 }
    ensures puts { (decisions : List Verdict) → Counts decisions tally.now
        → Puts W.stands sink.old sink.new
        (some_line unanswered_line (unanswered_if all policy.now.requests decisions)) result }
    ensures ending { (decisions : List Verdict) → Counts decisions tally.now
        → IfOk result (λ ending. ending ≡ ending_of
        (is_none (unanswered_if all policy.now.requests decisions) && all_accept decisions)) }
    ensures counts { CountsFaults W.faults sink.old sink.new result }
{
    match first_unanswered(all, policy, tally) {
        Some(i) => {
            print_line(i, sink)?;
            Ok(Ending::Rejected)
        }
        None => Ok(Ending::of(tally.all_accept())),
    }
}
