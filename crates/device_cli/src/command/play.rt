use crate::command::telling::Telling;
use device_play::LineWatcher;

/// The command `play`.
impl Telling for LineWatcher {
    ghost use Rattle.std.specs.Prelude.{refl};
    ghost use Rattle.device_trace.specs.Text.{play_text};
    ghost use Rattle.device_cli.specs.Play.{text_outcome};

    ghost outcome = { text_outcome play_text };

    ghost once_put = { λ outcome. Unit {0} };

    fn watcher() -> LineWatcher {
        LineWatcher
    }

    ghost of_play = { λ device_play. refl };

    ghost accepted = { λ device_play. refl };
}
