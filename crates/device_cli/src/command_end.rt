use input_files::RowEnd;

/// The row of a command ends with what is put.
pub struct CommandEnd;

impl RowEnd for CommandEnd {
    ghost use Rattle.device_cli.specs.Row.{Outcome as Put};

    ghost Outcome = { Put };
}
