ghost use Rattle.std.specs.Prelude.{◌≡◌, IfOk};
ghost use Rattle.debug_session.specs.Session.{first_session};
ghost use Rattle.debug_walk.specs.Copies.{played_run};
ghost use Rattle.device_debug.specs.Session.{StandsInRun};

use crate::debugger::Debugger;
use crate::interrupts::Interrupts;
use debug_link::{AnswerFault, Answerer, Connection, PacketWriter};
use debug_session::read_command;
use debug_walk::Run;
use hmac_core::Digest32;
use outside_edge::Sink;
use std::alloc::{AllocError, Global};

/// A debugger of a run, and what may interrupt the device on its way.
#[derive(Drop)]
pub struct RunDebugger<'a, D: Digest32, I: Interrupts + Drop> {
    debugger: Debugger<'a, D>,
    interrupts: I,
}

impl<'a, D: Digest32, I: Interrupts + Drop> RunDebugger<'a, D, I> {
    /// At place 1, after the boot.
    pub fn new(
        alloc: Global,
        run: Run<'a>,
        interrupts: I,
    ) -> Result<RunDebugger<'a, D, I>, AllocError>
        ensures { IfOk result (λ it. (it.interrupts ≡ interrupts) × StandsInRun D.hash it
            (record { run = played_run D.hash run.entry; session = first_session })) }
    {
        let debugger = Debugger::new(alloc, run)?;
        Ok(RunDebugger {
            debugger,
            interrupts,
        })
    }
}

impl<D: Digest32, I: Interrupts + Drop> Answerer for RunDebugger<'_, D, I> {
    ghost use Rattle.std.specs.Prelude.{ℕ};
    ghost use Rattle.device_debug.specs.Session.{RunSession, StandsInRun, run_reply};

    ghost Session = { RunSession };

    ghost stands = { StandsInRun D.hash };

    // The place at which it stops.
    ghost Interrupt = { ℕ };

    ghost left = { λ it. I.left it.interrupts };

    ghost reply = { run_reply };

    fn answer<W: Sink + Drop>(
        &mut self,
        body: &[u8],
        packets: &mut PacketWriter<W>,
    ) -> Result<Connection, AnswerFault> {
        self.debugger
            .answer(read_command(body), &mut self.interrupts, packets)
    }
}
