use crate::command::telling::Telling;
use device_play::DumpWatcher;

/// The command `dump`.
impl Telling for DumpWatcher {
    ghost use Rattle.std.specs.Prelude.{refl};
    ghost use Rattle.device_cli.specs.{Command.dump_text, Play.text_outcome};

    ghost outcome = { text_outcome dump_text };

    ghost once_put = { λ outcome. Unit {0} };

    fn watcher() -> DumpWatcher {
        DumpWatcher
    }

    ghost of_play = { λ device_play. refl };

    ghost accepted = { λ device_play. refl };
}
