ghost use Rattle.std.specs.Prelude.{◌≡◌, suc, IfErr, IfOk};
ghost use Rattle.debug_link.specs.declared.answer_fault.AnswerFault.TheVariants.{Memory};
ghost use Rattle.debug_session.specs.Place.{Run, step_sight};
ghost use Rattle.debug_walk.specs.Walk.{second_flag};
ghost use Rattle.device_core.specs.Device.{HasStepped, LiveStandsFor};
ghost use Rattle.device_trace.specs.Trace.{play_of};
ghost use Rattle.device_play.specs.Watching.{PlaysSome};
ghost use Rattle.outside_edge.specs.Sink.{Puts};
ghost use Rattle.device_debug.specs.{Telling.text_in, declared.step_text.StepText.TheVariants.Trace};

use crate::grown_text::{GrownText, memory_result};
use debug_link::AnswerFault;
use device_core::Live;
use device_play::{last_trace_line, print_last_step};
use execution_flags::AuxFlag;
use hmac_core::Digest32;
use outside_edge::{Failed, Sink};
use std::alloc::Global;
use trace_files::print_line;

/// What is told of a step.
#[derive(Clone, Copy, Debug, PartialEq, Eq)]
pub enum StepText {
    /// The lines that `play` prints.
    Lines,
    /// The line of a trace file.
    Trace,
}

impl StepText {
    /// Of the last step, which has this number.
    pub fn of<D: Digest32>(
        self,
        alloc: Global,
        step: u64,
        live: &Live<D, AuxFlag>,
    ) -> Result<GrownText, AnswerFault>
        requires stepped { self ≡ Trace → HasStepped live.now }
        requires plays { self ≡ Trace
            → PlaysSome D.hash second_flag live.now }
        ensures text { IfOk result (λ text. (run : Run)
            → LiveStandsFor D.hash second_flag live.now run.start
            (play_of run.events_at (suc step))
            → text.bytes ≡ text_in self (step_sight run step)) }
        ensures fault { IfErr result (λ fault. fault ≡ Memory) }
    {
        let mut text = GrownText::new(alloc);
        memory_result(self.print(step, live, &mut text))?;
        Ok(text)
    }

    // Puts it into a text.
    fn print<D: Digest32>(
        self,
        step: u64,
        live: &Live<D, AuxFlag>,
        text: &mut GrownText,
    ) -> Result<(), Failed>
        requires stepped { self ≡ Trace → HasStepped live.now }
        requires plays { self ≡ Trace
            → PlaysSome D.hash second_flag live.now }
        ensures { (run : Run)
            → LiveStandsFor D.hash second_flag live.now run.start
            (play_of run.events_at (suc step))
            → Puts ⟦<GrownText as Sink>⟧.stands text.old text.new
            (text_in self (step_sight run step)) result }
    {
        match self {
            StepText::Lines => print_last_step(step, live, text),
            StepText::Trace => print_line(step, &last_trace_line(live), text),
        }
    }
}
