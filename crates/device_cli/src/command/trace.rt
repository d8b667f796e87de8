use crate::command::telling::Telling;
use device_play::TraceWatcher;

/// The command `trace`.
impl Telling for TraceWatcher {
    ghost use Rattle.std.specs.Prelude.{refl};
    ghost use Rattle.trace_files.specs.TraceText.{trace_text};
    ghost use Rattle.device_cli.specs.{Play.text_outcome, Command.ReadsBack};

    ghost outcome = { text_outcome trace_text };

    ghost once_put = { ReadsBack };

    fn watcher() -> TraceWatcher {
        TraceWatcher
    }

    ghost of_play = { λ device_play. refl };

    ghost accepted = { λ device_play. refl };
}
