use crate::command::telling::Telling;
use device_play::WaveWatcher;

/// The command `wave`.
impl Telling for WaveWatcher {
    ghost use Rattle.std.specs.Prelude.{refl};
    ghost use Rattle.device_cli.specs.{Play.text_outcome, Command.wave_text};

    ghost outcome = { text_outcome wave_text };

    ghost once_put = { λ outcome. Unit {0} };

    fn watcher() -> WaveWatcher {
        WaveWatcher
    }

    ghost of_play = { λ device_play. refl };

    ghost accepted = { λ device_play. refl };
}
