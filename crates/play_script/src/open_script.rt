ghost use Rattle.std.specs.Prelude.{◌≡◌, ℕ};
ghost use Rattle.text_scan.specs.LineFold.{TakesLine};
ghost use Rattle.play_script.specs.{Grammar.{no_lines, with_entry}, Script.{events_in, events_of, from_step}};

use crate::happening::Happening;
use crate::playback::Playback;
use crate::script::Script;
use std::alloc::Global;
use std::marker::Model;
use text_scan::{FaultKind, WordFault};

/// The script of the lines so far, and the greatest step that they named.
#[derive(Debug, Drop)]
pub struct OpenScript {
    script: Script,
    greatest: u64,
}

impl Model for OpenScript {
    ghost use Rattle.std.specs.Prelude.{◌≤◌, All};
    ghost use Rattle.play_script.specs.Grammar.{ScriptSoFar};

    ghost Value = { ScriptSoFar };

    ghost view = { λ it. record { events = it.script; greatest = it.greatest } };

    ghost invariant = { λ it. All (λ earlier. earlier.0 ≤ it.greatest) it.script };
}

impl OpenScript {
    ghost use Rattle.play_script.specs.Playback.{events_left};

    /// Of no lines.
    pub fn new(alloc: Global) -> OpenScript
        ensures { result ≡ no_lines }
    {
        OpenScript {
            script: Script::new(alloc),
            greatest: 0,
        }
    }

    /// Puts what a line says of a step after the other events, where no earlier line names a later
    /// step.
    pub fn add(&mut self, step: u64, happening: &Happening) -> Result<(), WordFault>
        ensures { TakesLine result self.new (with_entry self.old (step, events_in happening.now)) }
    {
        if step < self.greatest {
            return Err(WordFault::Kind(FaultKind::Order));
        }
        self.greatest = step;
        match self.script.add_all(step, happening) {
            Ok(()) => Ok(()),
            Err(error) => Err(WordFault::Memory(error)),
        }
    }

    /// Lets go the events of the steps before this one.
    pub fn forget_before(&mut self, step: u64)
        ensures events { self.new.events ≡ from_step step self.old.events }
        ensures greatest { self.new.greatest ≡ self.old.greatest }
    {
        self.script.forget_before(step);
    }

    /// All the events, to be passed step by step.
    pub fn playback(&self) -> Playback<'_>
        ensures { (step : ℕ) → events_left result step ≡ events_of self.now.events step }
    {
        self.script.playback()
    }

    pub fn into_script(self) -> Script
        ensures { result ≡ self.events }
    {
        self.script
    }
}
