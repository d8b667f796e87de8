ghost use Rattle.std.specs.Prelude.{◌≡◌};
ghost use Rattle.device_cli.specs.Status.{status_of_put};

use crate::ending::Ending;
use device_play::PutFault;
use input_files::Status;

/// The answer once a text was begun.
pub fn put_status(ended: Result<Ending, PutFault>) -> Status
    ensures { result ≡ status_of_put ended }
{
    match ended {
        Ok(Ending::Done) => Status::Done,
        Ok(Ending::Rejected) => Status::Rejected,
        Err(PutFault::Write) => Status::WriteFault,
        Err(PutFault::Memory) => Status::Memory,
    }
}
