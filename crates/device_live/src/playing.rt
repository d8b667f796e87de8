ghost use Rattle.std.specs.Prelude.{◌≡◌, ◌≤◌, ◌^◌};
ghost use Rattle.outside_edge.specs.Sink.{CountsFaults};
ghost use Rattle.device_trace.specs.Start.{Start};
ghost use Rattle.device_core.specs.Device.{LiveStandsFor};
ghost use Rattle.device_live.specs.{Life.{Life, play_lived}, Living.{KeepsToCome, PlaysOn}};

use device_core::{AllQuiet, Live};
use device_play::{LineWatcher, play_to_shown, print_last_step};
use device_types::TraceFlag;
use hmac_core::Digest32;
use outside_edge::{Failed, Sink};
use play_script::OpenScript;

/// Goes on until so many steps were made, and puts their lines.
pub fn play_and_print<D: Digest32, G: TraceFlag, W: Sink>(
    live: Live<D, G>,
    to_come: &OpenScript,
    steps: u64,
    sink: &mut W,
) -> Result<Live<D, G>, Failed>
    requires { steps ≤ 2 ^ 63 }
    ensures plays { (start : Start) (life : Life)
        → LiveStandsFor D.hash G.flag live start (play_lived life)
        → KeepsToCome to_come.now.events life
        → life.steps ≤ steps
        → PlaysOn D.hash G.flag W.stands sink.old sink.new start life steps result }
    ensures counts { CountsFaults W.faults sink.old sink.new result }
{
    let mut live = live;
    let mut playback = to_come.playback();
    while live.steps() < steps {
        live = play_to_shown::<LineWatcher, AllQuiet, D, G>(live, &mut playback, &AllQuiet, steps);
        print_last_step(live.steps() - 1, &live, sink)?;
    }
    Ok(live)
}
