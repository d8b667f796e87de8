use crate::line_watcher::LineWatcher;
use crate::put_fault::PutFault;
use crate::watcher::Watcher;
use device_core::Live;
use device_types::TraceFlag;
use hex_loader::write_memory;
use hmac_core::Digest32;
use outside_edge::{Failed, Sink};

/// Puts the lines of a play, and memory after it.
#[derive(Clone, Copy, Debug)]
pub struct DumpWatcher;

impl Watcher for DumpWatcher {
    ghost use Rattle.std.specs.Prelude.{false};
    ghost use Rattle.device_play.specs.Accounts.{dump_account};

    type Tally = ();

    ghost every_step = { false };

    ghost account = { λ digest watcher. dump_account };

    #[inline(always)]
    fn is_shown_every_step() -> bool {
        false
    }

    fn begin<W: Sink>(&self, sink: &mut W) -> Result<(), Failed> {
        LineWatcher.begin(sink)
    }

    fn see<D: Digest32, G: TraceFlag, W: Sink>(
        &self,
        tally: &mut (),
        step: u64,
        live: &Live<D, G>,
        sink: &mut W,
    ) -> Result<(), PutFault> {
        LineWatcher.see(tally, step, live, sink)
    }

    fn end<D: Digest32, G: TraceFlag, W: Sink>(
        &self,
        tally: &(),
        live: &Live<D, G>,
        sink: &mut W,
    ) -> Result<(), Failed> {
        LineWatcher.end(tally, live, sink)?;
        write_memory(live.memory(), sink)
    }
}
