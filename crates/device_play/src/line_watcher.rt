ghost use Rattle.std.specs.Prelude.{◌≡◌, ◌++◌, ◌∷◌, List, Some, length};
ghost use Rattle.device_types.specs.declared.event.Event.{Event};
ghost use Rattle.outside_edge.specs.Sink.{Puts, CountsFaults};
ghost use Rattle.device_trace.specs.{Trace.Play, Start.Start, Text.{some_line, lines_of_step}};
ghost use Rattle.printed_lines.specs.Line.{sent_line, reset_line, report_line, denied_line};
ghost use Rattle.device_core.specs.{Device.{LiveStandsFor, OfLive}, Silence.{byte_in_line, rule_in_line, report_in_line, denied_in_line}};
ghost use Rattle.device_play.specs.Accounts.{end_line_of};

use crate::put_fault::PutFault;
use crate::watcher::Watcher;
use device_core::{Live, StepLine};
use device_types::TraceFlag;
use hmac_core::Digest32;
use outside_edge::{Failed, Sink};
use report_text::{print_denied, print_end, print_report, print_reset, print_sent};

// Puts the line of the step of this number.
fn print_step_line<W: Sink>(step: u64, line: &StepLine<'_>, sink: &mut W) -> Result<(), Failed>
    ensures puts { Puts W.stands sink.old sink.new
        (some_line (sent_line step) (byte_in_line (Some line.now))
        ++ some_line (reset_line step) (rule_in_line (Some line.now))
        ++ some_line report_line (report_in_line (Some line.now))
        ++ some_line (denied_line step) (denied_in_line (Some line.now))) result }
    ensures counts { CountsFaults W.faults sink.old sink.new result }
{
    match line {
        StepLine::Sent(byte) => print_sent(step, *byte, sink),
        StepLine::Reset(rule) => print_reset(step, *rule, sink),
        StepLine::Report(view) => print_report(view, sink),
        StepLine::Denied(decision) => print_denied(step, *decision, sink),
    }
}

/// Puts the line of the last step, which has this number, where it has one.
pub fn print_last_step<D: Digest32, G: TraceFlag, W: Sink>(
    step: u64,
    live: &Live<D, G>,
    sink: &mut W,
) -> Result<(), Failed>
    ensures puts { (start : Start) (events : List Event) (play : Play)
        → LiveStandsFor D.hash G.flag live.now start (events ∷ play)
        → step ≡ length play
        → Puts W.stands sink.old sink.new (lines_of_step start events play) result }
    ensures counts { CountsFaults W.faults sink.old sink.new result }
{
    match live.line() {
        Some(line) => print_step_line(step, &line, sink),
        None => Ok(()),
    }
}

/// Puts the end line, after the last step.
pub fn print_end_of<D: Digest32, G: TraceFlag, W: Sink>(
    live: &Live<D, G>,
    sink: &mut W,
) -> Result<(), Failed>
    ensures puts { OfLive D.hash G.flag live.now (λ start play.
        Puts W.stands sink.old sink.new (end_line_of start play) result) }
    ensures counts { CountsFaults W.faults sink.old sink.new result }
{
    print_end(live.steps(), live.next_pc(), live.exec(), sink)
}

/// Puts the lines of a play.
#[derive(Clone, Copy, Debug)]
pub struct LineWatcher;

impl Watcher for LineWatcher {
    ghost use Rattle.std.specs.Prelude.{false};
    ghost use Rattle.device_play.specs.Accounts.{line_account};

    type Tally = ();

    ghost every_step = { false };

    ghost account = { λ digest watcher. line_account };

    #[inline(always)]
    fn is_shown_every_step() -> bool {
        false
    }

    fn begin<W: Sink>(&self, _sink: &mut W) -> Result<(), Failed> {
        Ok(())
    }

    fn see<D: Digest32, G: TraceFlag, W: Sink>(
        &self,
        _tally: &mut (),
        step: u64,
        live: &Live<D, G>,
        sink: &mut W,
    ) -> Result<(), PutFault> {
        print_last_step(step, live, sink)?;
        Ok(())
    }

    fn end<D: Digest32, G: TraceFlag, W: Sink>(
        &self,
        _tally: &(),
        live: &Live<D, G>,
        sink: &mut W,
    ) -> Result<(), Failed> {
        print_end_of(live, sink)
    }
}
