ghost use Rattle.std.specs.Prelude.{◌≡◌, ◌<◌, ◌≤◌, ◌^◌, [], ℕ, List, true};
ghost use Rattle.device_types.specs.declared.event.Event.{Event};
ghost use Rattle.device_trace.specs.{Start.Start, Trace.play_of};
ghost use Rattle.play_script.specs.Script.{events_of};
ghost use Rattle.device_core.specs.Device.{HasStepped, HeldStandsFor, steps_made};
ghost use Rattle.device_play.specs.{Cuts.CountsWriteFaults, Midway.{IsMidway, HasGoneOn}, Watching.{IsPoweredOn, IsWatched}};

use crate::put_fault::PutFault;
use crate::watcher::Watcher;
use device_core::{AllQuiet, Device, Held, Live, Quiet};
use device_types::TraceFlag;
use hmac_core::Digest32;
use outside_edge::Sink;
use play_script::{Playback, Script};

/// Makes steps up to the next one that is shown to a watcher: that of the next event, or one behind
/// which a row ends, or any, where every step is shown. At most so many are made then.
pub fn play_to_shown<O: Watcher, Q: Quiet, D: Digest32, G: TraceFlag>(
    live: Live<D, G>,
    playback: &mut Playback<'_>,
    quiet: &Q,
    steps: u64,
) -> Live<D, G>
    requires more { steps_made live < steps }
    requires few { steps ≤ 2 ^ 63 }
    ensures made { steps_made live < steps_made result }
    ensures within { steps_made result ≤ steps }
    ensures kept { O.every_step ≡ true → HasStepped result }
    ensures plays { (start : Start) (events_at : ℕ → List Event)
        → IsMidway D.hash G.flag start events_at live playback.old
        → HasGoneOn D.hash G.flag O.every_step (Q.quiet quiet.now) start events_at
        (steps_made live) result playback.new }
{
    let step = live.steps();
    let next = playback.next_step();
    if O::is_shown_every_step() || next <= step {
        live.step(playback.pass(step))
    } else {
        live.make_row(quiet, next.min(steps) - step)
    }
}

/// Plays a script's first steps on a device at power-on before a watcher. It gives the device after
/// the last step, and the tally. The play obeys the laws of the device.
pub fn play_before<O: Watcher, D: Digest32, G: TraceFlag, W: Sink>(
    device: Device<Held, D, G>,
    script: &Script,
    steps: u64,
    watcher: &O,
    sink: &mut W,
) -> Result<(Live<D, G>, O::Tally), PutFault>
    requires powered_on { IsPoweredOn D.hash G.flag device }
    requires few { steps ≤ 2 ^ 63 }
    ensures watched { (start : Start)
        → HeldStandsFor D.hash G.flag device start []
        → IsWatched D.hash G.flag W.stands (O.account D.hash.digest_of watcher.now)
        sink.old sink.new start (play_of (events_of script.now) steps) result }
    ensures counts { CountsWriteFaults W.faults sink.old sink.new result }
{
    let mut tally = watcher.begin(sink)?;
    let mut live = Live::Held(device);
    let mut playback = script.playback();
    while live.steps() < steps {
        live = play_to_shown::<O, AllQuiet, D, G>(live, &mut playback, &AllQuiet, steps);
        watcher.see(&mut tally, live.steps() - 1, &live, sink)?;
    }
    watcher.end(&tally, &live, sink)?;
    Ok((live, tally))
}
