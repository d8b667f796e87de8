ghost use Rattle.std.specs.Prelude.{◌≡◌, ◌<◌, ◌^◌, List, Some, IfOk, IfSome, IsTrue, option_map};
ghost use Rattle.device_types.specs.Report.{fields_of};
ghost use Rattle.part_definitions.specs.Memory.{PowerOn, ShownFlags, MemoryWrite, byte_at};
ghost use Rattle.device_trace.specs.Text.{some_line};
ghost use Rattle.mem_map.specs.Memory.{MemoryStandsFor};
ghost use Rattle.outside_edge.specs.Sink.{Puts};
ghost use Rattle.report_verifier.specs.{Comparison.OutputFits, Validity.are_valid_for, Judge.{judge_of, verdict_at}};
ghost use Rattle.device_play.specs.Cuts.{CountsWriteFaults, StopsOnlyAt};
ghost use Rattle.device_cli.specs.{Judgement.{TellsOutput, pair_cuts, pair_line, pair_shown, remark_cuts, remark_lines, remark_on, tally_after}, Verdicts.is_accept};

use crate::verdict::tally::Tally;
use device_play::PutFault;
use device_types::ReportView;
use hmac_core::Digest32;
use mem_map::Memory;
use outside_edge::Sink;
use report_text::{print_collision, print_verdict};
use report_verifier::{Exhibit, Expect, Verdict, Verifier, compare};
use std::alloc::Global;

// After an accept the device's own bytes are compared with those that the report is expected to be
// of, and a pair that collides is put.
fn print_evidence<D: Digest32, W: Sink>(
    alloc: Global,
    verifier: &Verifier<'_>,
    expect: Option<Expect>,
    verdict: Verdict,
    report: &ReportView<'_>,
    memory: &Memory,
    sink: &mut W,
) -> Result<(), PutFault>
    requires { IfSome expect (λ expect.
        IsTrue (are_valid_for expect.version expect.bounds)) }
    ensures puts { (start : PowerOn) (flags : ShownFlags) (writes : List MemoryWrite)
        → MemoryStandsFor memory.now start flags writes
        → (IsTrue (is_accept verdict) → IfSome expect (λ expect.
        OutputFits expect.bounds (fields_of report.now).output))
        → Puts W.stands sink.old sink.new
        (some_line pair_line (pair_shown (judge_of D.hash.digest_of verifier.now) expect verdict
        (fields_of report.now) (byte_at start flags writes))) result }
    ensures memory { (start : PowerOn) (flags : ShownFlags) (writes : List MemoryWrite)
        → MemoryStandsFor memory.now start flags writes
        → (IsTrue (is_accept verdict) → IfSome expect (λ expect.
        OutputFits expect.bounds (fields_of report.now).output))
        → StopsOnlyAt W.stands sink.old sink.new
        (pair_cuts (pair_shown (judge_of D.hash.digest_of verifier.now) expect verdict
        (fields_of report.now) (byte_at start flags writes))) result }
    ensures counts { CountsWriteFaults W.faults sink.old sink.new result }
{
    let (Some(expect), Verdict::Accept) = (expect, verdict) else {
        return Ok(());
    };
    let (key, image) = (verifier.key, verifier.image);
    match compare::<D>(alloc, key, image, &expect, report, memory)? {
        Exhibit::Pair(first, second) => {
            print_collision(first.as_slice(), second.as_slice(), sink)?;
            Ok(())
        }
        Exhibit::Same | Exhibit::MacsDiffer => Ok(()),
    }
}

// The verdict on report `i`, from 0, and what it shows.
fn judge<D: Digest32, W: Sink>(
    alloc: Global,
    verifier: &Verifier<'_>,
    i: usize,
    report: &ReportView<'_>,
    memory: &Memory,
    sink: &mut W,
) -> Result<Verdict, PutFault>
    requires { i < 2 ^ 63 }
    ensures verdict { IfOk result (λ verdict.
        verdict ≡ verdict_at (judge_of D.hash.digest_of verifier.now) i (fields_of report.now)) }
    ensures puts { (start : PowerOn) (flags : ShownFlags) (writes : List MemoryWrite)
        → MemoryStandsFor memory.now start flags writes
        → TellsOutput (byte_at start flags writes) (Some (fields_of report.now))
        → Puts W.stands sink.old sink.new
        (remark_lines (remark_on (judge_of D.hash.digest_of verifier.now) i
        (byte_at start flags writes) (fields_of report.now))) result }
    ensures memory { (start : PowerOn) (flags : ShownFlags) (writes : List MemoryWrite)
        → MemoryStandsFor memory.now start flags writes
        → TellsOutput (byte_at start flags writes) (Some (fields_of report.now))
        → StopsOnlyAt W.stands sink.old sink.new
        (remark_cuts (Some (remark_on (judge_of D.hash.digest_of verifier.now) i
        (byte_at start flags writes) (fields_of report.now)))) result }
    ensures counts { CountsWriteFaults W.faults sink.old sink.new result }
{
    let expect = verifier.policy.expect(i);
    let verdict = verifier.verdict::<D>(i, report);
    print_verdict(i as u64 + 1, verdict, sink)?;
    print_evidence::<D, W>(alloc, verifier, expect, verdict, report, memory, sink)?;
    Ok(verdict)
}

/// Judges the report that a step made, if it made one, and puts what it says of it. `memory` is the
/// device's after that step.
pub fn judge_last<D: Digest32, W: Sink>(
    alloc: Global,
    verifier: &Verifier<'_>,
    tally: Tally,
    report: Option<ReportView<'_>>,
    memory: &Memory,
    sink: &mut W,
) -> Result<Tally, PutFault>
    requires { tally.verdicts < 2 ^ 63 }
    ensures tally { IfOk result (λ new.
        new ≡ tally_after (judge_of D.hash.digest_of verifier.now) tally
        (option_map fields_of report.entry)) }
    ensures puts { (start : PowerOn) (flags : ShownFlags) (writes : List MemoryWrite)
        → MemoryStandsFor memory.now start flags writes
        → TellsOutput (byte_at start flags writes) (option_map fields_of report.entry)
        → Puts W.stands sink.old sink.new
        (some_line remark_lines (option_map (remark_on (judge_of D.hash.digest_of verifier.now)
        tally.verdicts (byte_at start flags writes)) (option_map fields_of report.entry))) result }
    ensures memory { (start : PowerOn) (flags : ShownFlags) (writes : List MemoryWrite)
        → MemoryStandsFor memory.now start flags writes
        → TellsOutput (byte_at start flags writes) (option_map fields_of report.entry)
        → StopsOnlyAt W.stands sink.old sink.new
        (remark_cuts (option_map (remark_on (judge_of D.hash.digest_of verifier.now)
        tally.verdicts (byte_at start flags writes)) (option_map fields_of report.entry))) result }
    ensures counts { CountsWriteFaults W.faults sink.old sink.new result }
{
    let Some(report) = report else {
        return Ok(tally);
    };
    let verdict = judge::<D, W>(alloc, verifier, tally.verdicts, &report, memory, sink)?;
    Ok(tally.with_verdict(verdict))
}
