ghost use Rattle.device_core.specs.Device.{HasStepped, OfLive};

use crate::put_fault::PutFault;
use device_core::Live;
use device_types::TraceFlag;
use hmac_core::Digest32;
use outside_edge::{Failed, Sink};

/// Who watches a play: it puts what there is to say of it, and keeps a tally. What it says of a
/// play goes on from what it says of the steps before.
pub trait Watcher {
    ghost use Rattle.std.specs.Prelude.{◌≡◌, ◌<◌, ◌^◌, [], Bool, true, List, IfOk};
    ghost use Rattle.device_types.specs.declared.event.Event.{Event};
    ghost use Rattle.outside_edge.specs.Sink.{Puts, CountsFaults};
    ghost use Rattle.part_definitions.specs.Hmac.{Digest};
    ghost use Rattle.device_trace.specs.{Trace.Play, Start.Start};
    ghost use Rattle.device_play.specs.{Account.{Account, GoesOn}, Cuts.CountsWriteFaults, Watching.{HasSeen, IsShown, IsShownSome}};

    /// What it keeps of the steps so far.
    type Tally: Copy;

    /// Whether it is shown every step. Else it is not shown those that come without events, send
    /// no byte, are not refused and finish no call.
    ghost every_step: { Bool };

    /// Under a digest: what it says of a play.
    ghost account: { Digest → Self → Account Self.Tally };

    /// That constant.
    fn is_shown_every_step() -> bool
        ensures { result ≡ every_step };

    /// Puts what comes before the first step, and begins a tally.
    fn begin<W: Sink>(&self, sink: &mut W) -> Result<Self::Tally, Failed>
        ensures goes_on { (digest : Digest) (start : Start) (events : List Event) (play : Play)
            → GoesOn (account digest self.now) every_step start events play }
        ensures tally { (digest : Digest) (start : Start)
            → IfOk result ((account digest self.now).tallies start []) }
        ensures puts { (digest : Digest) (start : Start)
            → Puts W.stands sink.old sink.new ((account digest self.now).text start []) result }
        ensures counts { CountsFaults W.faults sink.old sink.new result };

    /// Puts what there is to say of the last step, which has this number.
    fn see<D: Digest32, G: TraceFlag, W: Sink>(
        &self,
        tally: &mut Self::Tally,
        step: u64,
        live: &Live<D, G>,
        sink: &mut W,
    ) -> Result<(), PutFault>
        requires few { step < 2 ^ 63 }
        requires kept { every_step ≡ true → HasStepped live.now }
        requires shown { IsShownSome D.hash G.flag (account D.hash.digest_of self.now) live.now
            tally.old step }
        ensures seen { (start : Start) (events : List Event) (play : Play)
            → IsShown D.hash G.flag (account D.hash.digest_of self.now) live.now tally.old step
            start events play
            → HasSeen W.stands (account D.hash.digest_of self.now) sink.old sink.new tally.new
            start events play result }
        ensures counts { CountsWriteFaults W.faults sink.old sink.new result };

    /// Puts what comes after the last step.
    fn end<D: Digest32, G: TraceFlag, W: Sink>(
        &self,
        tally: &Self::Tally,
        live: &Live<D, G>,
        sink: &mut W,
    ) -> Result<(), Failed>
        ensures puts { OfLive D.hash G.flag live.now (λ start play.
            (account D.hash.digest_of self.now).tallies start play tally.now
            → Puts W.stands sink.old sink.new
            ((account D.hash.digest_of self.now).end_text start play) result) }
        ensures counts { CountsFaults W.faults sink.old sink.new result };
}
