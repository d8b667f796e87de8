ghost use Rattle.std.specs.{Prelude.◌≡◌, Result.result_err};
ghost use Rattle.desk_cli.specs.{Noting.status_of_noted, Status.{status_of_served, status_of_unkept, status_of_unopened}};

use desk_database::MemoryFileFault;
use desk_memory::MemoryFault;
use input_files::{Status, Unfit};
use source_server::Served;
use verifier_desk::AnswerFault;

/// The answer where a memory was not opened or made.
pub fn unopened_status(fault: MemoryFileFault) -> Status
    ensures { result ≡ status_of_unopened fault }
{
    match fault {
        MemoryFileFault::Missing => Status::BadMemory(Unfit::Missing),
        MemoryFileFault::Unfounded => Status::BadMemory(Unfit::Unfounded),
        MemoryFileFault::Founded => Status::BadMemory(Unfit::Founded),
        MemoryFileFault::OtherLog => Status::BadMemory(Unfit::OtherLog),
        MemoryFileFault::Foreign | MemoryFileFault::HotJournal => {
            Status::BadMemory(Unfit::Foreign)
        }
        MemoryFileFault::InUse => Status::InUse,
        MemoryFileFault::Place | MemoryFileFault::Disk | MemoryFileFault::Full => Status::Unwritten,
        MemoryFileFault::OutOfMemory => Status::Memory,
    }
}

/// The answer where it failed later.
pub fn unkept_status(fault: MemoryFault) -> Status
    ensures { result ≡ status_of_unkept fault }
{
    match fault {
        MemoryFault::Memory => Status::Memory,
        MemoryFault::Failed => Status::Unwritten,
    }
}

/// The answer once a desk was opened.
pub fn served_status(served: Served<AnswerFault>) -> Status
    ensures { result ≡ status_of_served served }
{
    match served {
        Served::Done => Status::Done,
        Served::Spent => Status::Spent,
        Served::ReadFault => Status::ReadFault,
        Served::WriteFault => Status::WriteFault,
        Served::Own(AnswerFault::Memory) => Status::Memory,
        Served::Own(AnswerFault::Unkept(fault)) => unkept_status(fault),
    }
}

/// The answer where entries were to be kept.
pub fn noted_status(noted: Result<(), MemoryFault>) -> Status
    ensures { result ≡ status_of_noted (result_err noted) }
{
    match noted {
        Ok(()) => Status::Done,
        Err(fault) => unkept_status(fault),
    }
}
