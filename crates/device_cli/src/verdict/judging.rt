ghost use Rattle.std.specs.Prelude.{◌≡◌};

use crate::verdict::judgement::judge_last;
use crate::verdict::tally::Tally;
use device_core::Live;
use device_play::{PutFault, Watcher, print_end_of, print_last_step};
use device_types::TraceFlag;
use hmac_core::Digest32;
use outside_edge::{Failed, Sink};
use report_verifier::Verifier;
use std::alloc::Global;

/// Puts what `play` puts of a step, and judges its report. Memory is taken for a pair that collides
/// alone.
#[derive(Clone, Copy)]
pub struct Judging<'a> {
    pub alloc: Global,
    pub verifier: &'a Verifier<'a>,
}

impl<'a> Watcher for Judging<'a> {
    ghost use Rattle.std.specs.Prelude.{false};
    ghost use Rattle.report_verifier.specs.Judge.{judge_of};
    ghost use Rattle.device_cli.specs.JudgedPlay.{judge_account};

    type Tally = Tally;

    ghost every_step = { false };

    ghost account = { λ digest judging. judge_account (judge_of digest judging.verifier.now) };

    #[inline(always)]
    fn is_shown_every_step() -> bool
        ensures { result ≡ false }
    {
        false
    }

    fn begin<W: Sink>(&self, _sink: &mut W) -> Result<Tally, Failed> {
        Ok(Tally::new())
    }

    fn see<D: Digest32, G: TraceFlag, W: Sink>(
        &self,
        tally: &mut Tally,
        step: u64,
        live: &Live<D, G>,
        sink: &mut W,
    ) -> Result<(), PutFault> {
        print_last_step(step, live, sink)?;
        let (report, memory) = (live.report(), live.memory());
        *tally = judge_last::<D, W>(self.alloc, self.verifier, *tally, report, memory, sink)?;
        Ok(())
    }

    fn end<D: Digest32, G: TraceFlag, W: Sink>(
        &self,
        _tally: &Tally,
        live: &Live<D, G>,
        sink: &mut W,
    ) -> Result<(), Failed> {
        print_end_of(live, sink)
    }
}
