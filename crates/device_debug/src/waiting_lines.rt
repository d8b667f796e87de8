ghost use Rattle.std.specs.Prelude.{◌≡◌, ◌==◌, ◌<◌, ◌-◌, ◌++◌, [], IfErr, OnOk, length};
ghost use Rattle.debug_link.specs.{Console.console, Writing.{CountsWriteFaults, PutsPackets}, declared.answer_fault.AnswerFault.TheVariants.Memory};
ghost use Rattle.debug_walk.specs.Walk.{OfWalk, place_of};
ghost use Rattle.device_debug.specs.Telling.{TellsStep, bodies_of};

use crate::grown_text::GrownText;
use crate::step_text::StepText;
use debug_link::{AnswerFault, PacketWriter, put_text};
use debug_walk::Walk;
use hmac_core::Digest32;
use outside_edge::Sink;
use std::alloc::Global;
use std::marker::Model;

/// The lines of steps since the last boundary. They wait for the next one, since the device may
/// stop before the instruction that makes these steps.
#[derive(Drop)]
pub struct WaitingLines {
    alloc: Global,
    texts: Vec<GrownText>,
}

impl Model for WaitingLines {
    ghost use Rattle.std.specs.Prelude.{List};
    ghost use Rattle.device_debug.specs.Telling.{GrownText as Grown};

    ghost Value = { List Grown };

    ghost view = { λ waiting. waiting.texts.items };
}

impl WaitingLines {
    pub fn new(alloc: Global) -> WaitingLines
        ensures { result ≡ [] }
    {
        WaitingLines {
            alloc,
            texts: Vec::new(alloc),
        }
    }

    pub fn is_empty(&self) -> bool
        ensures { result ≡ (length self.now == 0) }
    {
        self.texts.is_empty()
    }

    /// Takes the lines of the last step, and tells those that need not wait.
    pub fn tell_step<D: Digest32, W: Sink + Drop>(
        &mut self,
        walk: &Walk<'_, D>,
        packets: &mut PacketWriter<W>,
    ) -> Result<(), AnswerFault>
        requires { 0 < place_of walk.now }
        ensures tells { OfWalk D.hash walk.now (λ run place.
            TellsStep W.Sink packets.old packets.new self.old self.new run (place - 1) result) }
        ensures counts { CountsWriteFaults W.faults packets.old.sink packets.new.sink result }
    {
        let text = StepText::Lines.of(self.alloc, walk.place() - 1, walk.live())?;
        self.keep(text)?;
        if walk.is_at_boundary() {
            self.tell(packets)
        } else {
            Ok(())
        }
    }

    /// One more text waits, where it is not empty.
    pub fn keep(&mut self, text: GrownText) -> Result<(), AnswerFault>
        ensures waits { OnOk result
            (bodies_of self.new ≡ bodies_of self.old ++ console text.bytes) }
        ensures fault { IfErr result (λ fault. fault ≡ Memory) }
    {
        if text.as_slice().is_empty() {
            return Ok(());
        }
        match self.texts.push(text) {
            Ok(()) => Ok(()),
            Err(_) => Err(AnswerFault::Memory),
        }
    }

    /// Tells all lines that wait.
    pub fn tell<W: Sink + Drop>(&mut self, packets: &mut PacketWriter<W>) -> Result<(), AnswerFault>
        ensures tells { PutsPackets W.Sink packets.old packets.new (bodies_of self.old) result }
        ensures emptied { OnOk result (self.new ≡ []) }
        ensures counts { CountsWriteFaults W.faults packets.old.sink packets.new.sink result }
    {
        for text in &self.texts {
            put_text(text.as_slice(), packets)?;
        }
        self.texts.clear();
        Ok(())
    }
}
