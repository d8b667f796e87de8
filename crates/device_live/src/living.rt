ghost use Rattle.std.specs.Prelude.{◌≡◌, ◌≤◌, [], length};
ghost use Rattle.outside_edge.specs.Sink.{CountsFaults, Puts};
ghost use Rattle.play_script.specs.Script.{events_in};
ghost use Rattle.text_scan.specs.Word.{words_of};
ghost use Rattle.device_trace.specs.Start.{Start};
ghost use Rattle.device_core.specs.Device.{HeldStandsFor};
ghost use Rattle.device_live.specs.{Answer.{answer_of, memory_line, registers_line, standing_line}, Conversation.answer_to_words, Life.{Life, at_power_on}, LiveLine.{Run, MOST_SHOWN, MOST_STEPS}};

use crate::line_fault::LineFault;
use crate::live_line::{LiveLine, read_live_line};
use crate::playing::play_and_print;
use crate::state_lines::{print_memory, print_registers};
use device_core::{Device, Held, Live};
use device_types::TraceFlag;
use hmac_core::Digest32;
use outside_edge::{Failed, Sink};
use play_script::{Happening, OpenScript};
use report_text::print_place;
use std::alloc::Global;
use text_scan::{FaultKind, WordFault};

/// A device that lives, and what it was told of steps to come.
#[derive(Drop)]
pub struct Living<D: Digest32, G: TraceFlag> {
    alloc: Global,
    // None once a sink has failed in the midst of a run.
    live: Option<Live<D, G>>,
    // The lines of a script that were taken, without what they say of steps that were made.
    to_come: OpenScript,
    // The greatest step that such a line named.
    latest: u64,
    // How many lines have come.
    pub(crate) lines: u64,
}

impl<D: Digest32, G: TraceFlag> Living<D, G> {
    ghost use Rattle.device_live.specs.Living.{AnswersSo, IsWithin, LivesOn, LivingStandsFor, TakesHappening, line_in};

    /// At power-on.
    pub fn new(alloc: Global, device: Device<Held, D, G>) -> Living<D, G>
        ensures lives { (start : Start) → HeldStandsFor D.hash G.flag device start []
            → LivingStandsFor D.hash G.flag result start at_power_on }
        ensures lines { result.lines ≡ 0 }
    {
        Living {
            alloc,
            live: Some(Live::Held(device)),
            to_come: OpenScript::new(alloc),
            latest: 0,
            lines: 0,
        }
    }

    /// Puts where the device stands, by this keyword.
    pub fn print_standing<W: Sink>(&self, keyword: &[u8], sink: &mut W) -> Result<(), Failed>
        requires { length keyword.now ≤ 16 }
        ensures puts { (start : Start) (life : Life)
            → LivingStandsFor D.hash G.flag self.now start life
            → Puts W.stands sink.old sink.new (standing_line keyword.now start life) result }
        ensures counts { CountsFaults W.faults sink.old sink.new result }
    {
        match &self.live {
            Some(live) => print_place(keyword, live.steps(), live.next_pc(), live.exec(), sink),
            None => Ok(()),
        }
    }

    // How many steps were made.
    fn steps(&self) -> u64
        ensures { (start : Start) (life : Life)
            → LivingStandsFor D.hash G.flag self.now start life → result ≡ life.steps }
    {
        match &self.live {
            Some(live) => live.steps(),
            None => 0,
        }
    }

    /// Answers a line, or gives its fault.
    pub fn answer_line<W: Sink>(&mut self, line: &[u8], sink: &mut W) -> Result<(), LineFault>
        ensures answers { (start : Start) (life : Life)
            → LivingStandsFor D.hash G.flag self.old start life
            → AnswersSo D.hash G.flag W.Sink sink.old sink.new self.new start life
            result (answer_to_words start life (words_of line.now)) }
        ensures rises { W.faults sink.old ≤ W.faults sink.new }
        ensures lines { self.new.lines ≡ self.old.lines }
    {
        let said = read_live_line(self.alloc, line)?;
        self.answer_said(said, sink)
    }

    // Answers what a line says.
    fn answer_said<W: Sink>(&mut self, said: LiveLine, sink: &mut W) -> Result<(), LineFault>
        requires { IsWithin said }
        ensures answers { (start : Start) (life : Life)
            → LivingStandsFor D.hash G.flag self.old start life
            → AnswersSo D.hash G.flag W.Sink sink.old sink.new self.new start life
            result (answer_of start life (line_in said)) }
        ensures rises { W.faults sink.old ≤ W.faults sink.new }
        ensures lines { self.new.lines ≡ self.old.lines }
    {
        match said {
            LiveLine::Happens(step, happening) => Ok(self.expect(step, &happening)?),
            LiveLine::Run(steps) => self.run(steps, sink),
            LiveLine::Registers => Ok(self.show_registers(sink)?),
            LiveLine::Memory(place, count) => Ok(self.show_memory(place, count, sink)?),
        }
    }

    // Keeps what comes in a step that was not made yet.
    fn expect(&mut self, step: u64, happening: &Happening) -> Result<(), WordFault>
        ensures takes { (start : Start) (life : Life)
            → LivingStandsFor D.hash G.flag self.old start life
            → TakesHappening D.hash G.flag self.new start life step (events_in happening.now)
            result }
        ensures lines { self.new.lines ≡ self.old.lines }
    {
        if step < self.steps() || step < self.latest {
            return Err(WordFault::Kind(FaultKind::Order));
        }
        self.to_come.add(step, happening)?;
        self.latest = step;
        Ok(())
    }

    // Goes on until so many steps were made, and puts their lines and where the device stands then.
    fn run<W: Sink>(&mut self, steps: u64, sink: &mut W) -> Result<(), LineFault>
        requires { steps ≤ MOST_STEPS }
        ensures answers { (start : Start) (life : Life)
            → LivingStandsFor D.hash G.flag self.old start life
            → AnswersSo D.hash G.flag W.Sink sink.old sink.new self.new start life
            result (answer_of start life (Run steps)) }
        ensures rises { W.faults sink.old ≤ W.faults sink.new }
        ensures lines { self.new.lines ≡ self.old.lines }
    {
        if steps < self.steps() {
            return Err(LineFault::Kind(FaultKind::Order));
        }
        self.live_on(steps, sink)?;
        self.print_standing(b"at", sink)?;
        Ok(())
    }

    // Goes on until so many steps were made, and puts their lines.
    fn live_on<W: Sink>(&mut self, steps: u64, sink: &mut W) -> Result<(), Failed>
        requires { steps ≤ MOST_STEPS }
        ensures lives { (start : Start) (life : Life)
            → LivingStandsFor D.hash G.flag self.old start life
            → life.steps ≤ steps
            → LivesOn D.hash G.flag W.stands sink.old sink.new self.new start life steps result }
        ensures counts { CountsFaults W.faults sink.old sink.new result }
        ensures lines { self.new.lines ≡ self.old.lines }
    {
        let Some(live) = self.live.take() else {
            return Ok(());
        };
        self.live = Some(play_and_print(live, &self.to_come, steps, sink)?);
        self.to_come.forget_before(steps);
        Ok(())
    }

    // Puts the registers.
    fn show_registers<W: Sink>(&self, sink: &mut W) -> Result<(), Failed>
        ensures puts { (start : Start) (life : Life)
            → LivingStandsFor D.hash G.flag self.now start life
            → Puts W.stands sink.old sink.new (registers_line start life) result }
        ensures counts { CountsFaults W.faults sink.old sink.new result }
    {
        match &self.live {
            Some(live) => print_registers(live, sink),
            None => Ok(()),
        }
    }

    // Puts so many bytes from a place on.
    fn show_memory<W: Sink>(&self, place: u16, count: u64, sink: &mut W) -> Result<(), Failed>
        requires { count ≤ MOST_SHOWN }
        ensures puts { (start : Start) (life : Life)
            → LivingStandsFor D.hash G.flag self.now start life
            → Puts W.stands sink.old sink.new (memory_line start life place count) result }
        ensures counts { CountsFaults W.faults sink.old sink.new result }
    {
        match &self.live {
            Some(live) => print_memory(live, place, count, sink),
            None => Ok(()),
        }
    }
}
