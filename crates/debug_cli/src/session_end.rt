use input_files::RowEnd;

/// The rows of these commands end with what serves the source.
pub struct SessionEnd;

impl RowEnd for SessionEnd {
    ghost use Rattle.debug_cli.specs.Session.{Service};

    ghost Outcome = { Service };
}
