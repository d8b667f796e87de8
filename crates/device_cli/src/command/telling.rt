ghost use Rattle.std.specs.Prelude.{◌≡◌, ◌≤◌, [], OnOk};
ghost use Rattle.outside_edge.specs.Sink.{Puts, CountsFaults};
ghost use Rattle.play_script.specs.Script.{events_of};
ghost use Rattle.device_trace.specs.Trace.{play_of};
ghost use Rattle.device_core.specs.Device.{HeldStandsFor};
ghost use Rattle.device_play.specs.{Limit.most_steps, Watching.IsPoweredOn};
ghost use Rattle.device_cli.specs.Row.{DevicePlay, start_in};

use device_core::{Device, Held};
use device_play::{PutFault, Watcher, play_before};
use device_types::TraceFlag;
use hmac_core::Digest32;
use outside_edge::{Failed, Sink};
use play_script::Script;

/// A watcher that says what a command puts of a play, which nobody judges.
pub trait Telling: Watcher + Copy {
    ghost use Rattle.std.specs.Prelude.{◌≡◌, [], Some, true};
    ghost use Rattle.part_definitions.specs.Hmac.{Digest};
    ghost use Rattle.device_trace.specs.{Trace.Play, Start.Start};
    ghost use Rattle.device_cli.specs.Row.{DevicePlay, Outcome, IsToldBy};

    /// What is put of a play.
    ghost outcome: { DevicePlay → Outcome };

    /// What holds of it once all of it was put.
    ghost once_put: { Outcome → Type 0 };

    /// The watcher. It takes no memory.
    fn watcher() -> Self
        ensures told { (digest : Digest) (device_play : DevicePlay)
            → IsToldBy (Self.account digest result) once_put (outcome device_play) device_play }
        ensures uncut { (digest : Digest) (start : Start) (play : Play)
            → (Self.account digest result).cuts start play ≡ [] };

    /// It is put of that play.
    ghost of_play: { (device_play : DevicePlay)
        → (outcome device_play).device_play ≡ Some device_play };

    /// There is no verdict in it.
    ghost accepted: { (device_play : DevicePlay) → (outcome device_play).is_accepted ≡ true };
}

/// Tells a play of a script's first steps on a device at power-on. It takes no memory.
pub fn tell<T: Telling, D: Digest32, G: TraceFlag, W: Sink>(
    device: Device<Held, D, G>,
    script: &Script,
    steps: u64,
    sink: &mut W,
) -> Result<(), Failed>
    requires powered_on { IsPoweredOn D.hash G.flag device }
    requires few { steps ≤ most_steps }
    ensures puts { (device_play : DevicePlay)
        → HeldStandsFor D.hash G.flag device (start_in device_play) []
        → device_play.play ≡ play_of (events_of script.now) steps
        → Puts W.stands sink.old sink.new (T.outcome device_play).text result }
    ensures whole { (device_play : DevicePlay)
        → HeldStandsFor D.hash G.flag device (start_in device_play) []
        → device_play.play ≡ play_of (events_of script.now) steps
        → OnOk result (T.once_put (T.outcome device_play)) }
    ensures counts { CountsFaults W.faults sink.old sink.new result }
{
    match play_before(device, script, steps, &T::watcher(), sink) {
        Ok(_) => Ok(()),
        Err(PutFault::Write) => Err(Failed),
        Err(PutFault::Memory) => unreachable!(),
    }
}
