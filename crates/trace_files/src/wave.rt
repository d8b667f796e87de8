ghost use Rattle.std.specs.Prelude.{◌≡◌, ◌<◌, ◌^◌, ◌+◌, ◌∷◌, [], List, length};
ghost use Rattle.outside_edge.specs.Sink.{Puts, CountsFaults};
ghost use Rattle.trace_files.specs.{declared.sample.Sample.Sample, WaveText.{end_text, header, last_shown, shown_after, step_text}};

use crate::change::{print_step, print_told};
use crate::header::print_header;
use crate::sample::Sample;
use crate::state::State;
use crate::trace_line::TraceLine;
use outside_edge::{Failed, Sink};

/// A waveform that is being written: what it keeps of the steps that it has told.
#[derive(Clone, Copy, Debug)]
pub struct Wave {
    steps: u64,
    // As it is shown: with EXEC and the state before its step.
    last: Option<Sample>,
    // The EXEC flag after it.
    exec: bool,
    // And the state.
    state: State,
}

impl Wave {
    ghost use Rattle.trace_files.specs.WaveText.{WaveStandsFor, shown_now, steps_told};

    /// A waveform that has told no step.
    pub fn new() -> Wave
        ensures stands { WaveStandsFor result [] }
        ensures told { steps_told result ≡ 0 }
    {
        Wave {
            steps: 0,
            last: None,
            exec: false,
            state: State {
                registers: [0; 16],
                aux: false,
                timer_flag: false,
            },
        }
    }

    /// Puts what stands before the first step.
    pub fn begin<W: Sink>(&self, sink: &mut W) -> Result<(), Failed>
        ensures puts { Puts W.stands sink.old sink.new header result }
        ensures counts { CountsFaults W.faults sink.old sink.new result }
    {
        print_header(sink)
    }

    /// Puts what the next step changes.
    pub fn tell<W: Sink>(&mut self, sample: &Sample, sink: &mut W) -> Result<(), Failed>
        requires { steps_told self.old < 2 ^ 63 }
        ensures puts { (before : List Sample) → WaveStandsFor self.old before
            → Puts W.stands sink.old sink.new
            (step_text (length before) (last_shown before) (shown_after before sample.now)) result }
        ensures stands { (before : List Sample) → WaveStandsFor self.old before
            → WaveStandsFor self.new (sample.now ∷ before) }
        ensures told { steps_told self.new ≡ steps_told self.old + 1 }
        ensures counts { CountsFaults W.faults sink.old sink.new result }
    {
        let now = self.shown_sample(sample);
        let result = print_step(self.steps, self.last.as_ref(), &now, sink);
        self.steps += 1;
        self.last = Some(now);
        self.exec = sample.line.exec;
        self.state = sample.state;
        result
    }

    #[inline(always)]
    fn shown_sample(&self, sample: &Sample) -> Sample
        ensures { result ≡ shown_now self.now sample.now }
    {
        Sample {
            line: TraceLine {
                exec: self.exec,
                ..sample.line
            },
            ports: sample.ports,
            state: self.state,
        }
    }

    /// Puts the time after the last step, and what it changed of EXEC and the state.
    #[inline(always)]
    pub fn end<W: Sink>(&self, sink: &mut W) -> Result<(), Failed>
        ensures puts { (samples : List Sample) → WaveStandsFor self.now samples
            → Puts W.stands sink.old sink.new (end_text samples) result }
        ensures counts { CountsFaults W.faults sink.old sink.new result }
    {
        let Some(last) = self.last else {
            return Ok(());
        };
        let after = self.shown_sample(&last);
        print_told(self.steps, self.last.as_ref(), &after, sink)
    }
}
