ghost use Rattle.std.specs.{Prelude.◌≡◌, Process.exit_status};
ghost use Rattle.input_files.specs.Status.{code_of};

use crate::status::Status;
use std::process::ExitCode;

/// The end of a program: what there is to say of the answer stands on standard error.
pub fn exit_with<R: Eprint>(rt: &R, status: Status) -> ExitCode
    ensures { exit_status result ≡ code_of status }
{
    if status != Status::Done {
        // Nothing is left to be done where standard error can't be written either.
        let _ = eprintln!(rt; "{status}");
    }
    ExitCode::from(status.code())
}
