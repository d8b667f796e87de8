ghost use Rattle.std.specs.{Prelude.{◌≡◌, ◌<◌, ◌^◌, IfOk, Some, length, option_map}, List.slice_get};
ghost use Rattle.outside_edge.specs.Sink.{Puts, CountsFaults};
ghost use Rattle.report_verifier.specs.Judge.{verdict_at, judge_of};
ghost use Rattle.device_cli.specs.Verdicts.{Counts, verdicts, lines_from};

use crate::verdict::tally::Tally;
use hmac_core::Digest32;
use outside_edge::{Failed, Sink};
use report_text::{Report, print_verdict};
use report_verifier::{Verdict, Verifier};

/// Puts a line for each report, and answers the tally of the verdicts.
pub fn print_verdicts<D: Digest32, W: Sink>(
    verifier: &Verifier<'_>,
    reports: &[Report],
    sink: &mut W,
) -> Result<Tally, Failed>
    ensures puts { Puts W.stands sink.old sink.new
        (lines_from 1 (verdicts (judge_of D.hash.digest_of verifier.now) reports.now)) result }
    ensures tally { IfOk result (Counts
        (verdicts (judge_of D.hash.digest_of verifier.now) reports.now)) }
    ensures few { IfOk result (λ tally. tally.verdicts < 2 ^ 63) }
    ensures counts { CountsFaults W.faults sink.old sink.new result }
{
    let mut tally = Tally::new();
    for i in 0..count_of(reports) {
        let decision = verdict_at::<D>(verifier, reports, i);
        print_verdict(i as u64 + 1, decision, sink)?;
        tally = tally.with_verdict(decision);
    }
    Ok(tally)
}

// How many reports there are.
fn count_of(reports: &[Report]) -> usize
    ensures count { result ≡ length reports.now }
    ensures few { result < 2 ^ 63 }
{
    reports.len()
}

// The verdict on a report of the list, numbered from 0.
fn verdict_at<D: Digest32>(verifier: &Verifier<'_>, reports: &[Report], i: usize) -> Verdict
    requires { i < length reports.now }
    ensures { Some result ≡ option_map (verdict_at (judge_of D.hash.digest_of verifier.now) i)
        (slice_get reports.now i) }
{
    verifier.verdict::<D>(i, &reports[i].view())
}
