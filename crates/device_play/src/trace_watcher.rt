use crate::put_fault::PutFault;
use crate::traced_line::last_trace_line;
use crate::watcher::Watcher;
use device_core::Live;
use device_types::TraceFlag;
use hmac_core::Digest32;
use outside_edge::{Failed, Sink};
use trace_files::print_line;

/// Puts the trace file of a play: a line for each step, with the secrets blanked.
#[derive(Clone, Copy, Debug)]
pub struct TraceWatcher;

impl Watcher for TraceWatcher {
    ghost use Rattle.std.specs.Prelude.{true};
    ghost use Rattle.device_play.specs.Accounts.{trace_account};

    type Tally = ();

    ghost every_step = { true };

    ghost account = { λ digest watcher. trace_account };

    #[inline(always)]
    fn is_shown_every_step() -> bool {
        true
    }

    fn begin<W: Sink>(&self, _sink: &mut W) -> Result<(), Failed> {
        Ok(())
    }

    fn see<D: Digest32, G: TraceFlag, W: Sink>(
        &self,
        _tally: &mut (),
        step: u64,
        live: &Live<D, G>,
        sink: &mut W,
    ) -> Result<(), PutFault> {
        print_line(step, &last_trace_line(live), sink)?;
        Ok(())
    }

    fn end<D: Digest32, G: TraceFlag, W: Sink>(
        &self,
        _tally: &(),
        _live: &Live<D, G>,
        _sink: &mut W,
    ) -> Result<(), Failed> {
        Ok(())
    }
}
