use crate::put_fault::PutFault;
use crate::watcher::Watcher;
use crate::wave_sample::last_wave_sample;
use device_core::Live;
use device_types::TraceFlag;
use hmac_core::Digest32;
use outside_edge::{Failed, Sink};
use trace_files::Wave;

/// Puts the waveform of a play, with the secrets blanked.
#[derive(Clone, Copy, Debug)]
pub struct WaveWatcher;

impl Watcher for WaveWatcher {
    ghost use Rattle.std.specs.Prelude.{true};
    ghost use Rattle.device_play.specs.Accounts.{wave_account};

    type Tally = Wave;

    ghost every_step = { true };

    ghost account = { λ digest watcher. wave_account };

    #[inline(always)]
    fn is_shown_every_step() -> bool {
        true
    }

    fn begin<W: Sink>(&self, sink: &mut W) -> Result<Wave, Failed> {
        let wave = Wave::new();
        wave.begin(sink)?;
        Ok(wave)
    }

    #[inline(always)]
    fn see<D: Digest32, G: TraceFlag, W: Sink>(
        &self,
        wave: &mut Wave,
        _step: u64,
        live: &Live<D, G>,
        sink: &mut W,
    ) -> Result<(), PutFault> {
        wave.tell(&last_wave_sample(live), sink)?;
        Ok(())
    }

    #[inline(always)]
    fn end<D: Digest32, G: TraceFlag, W: Sink>(
        &self,
        wave: &Wave,
        _live: &Live<D, G>,
        sink: &mut W,
    ) -> Result<(), Failed> {
        wave.end(sink)
    }
}
