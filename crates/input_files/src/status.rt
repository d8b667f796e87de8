ghost use Rattle.std.specs.Prelude.{◌≡◌};
ghost use Rattle.input_files.specs.Status.{code_of, status_of_refusal};

use crate::bad_file::BadFile;
use crate::refusal::Refusal;
use crate::unfit::Unfit;
use thiserror::Error;

/// How a run ended. It displays as the line on standard error, but for `Done`, which has none.
#[derive(Clone, Copy, Debug, PartialEq, Eq, Error)]
pub enum Status {
    /// All of the text was put.
    #[error("done")]
    Done,
    /// All of the text was put, and a verdict in it is not `accept`, or it names an offence.
    #[error("rejected")]
    Rejected,
    /// The arguments are no command.
    #[error("words are no command")]
    Words,
    /// A file is not there.
    #[error("file is absent")]
    Absent,
    /// A file could not be read.
    #[error("reading failed")]
    ReadFault,
    /// The text could not be put. A prefix of it was.
    #[error("writing failed")]
    WriteFault,
    /// There was no memory.
    #[error("no memory")]
    Memory,
    /// The first fault of a file.
    #[error("{0}")]
    Bad(BadFile),
    /// As many bytes were taken of the input as are taken at most.
    #[error("input is too long")]
    Spent,
    /// The memory is not one that the command asks for.
    #[error("bad memory: {0}")]
    BadMemory(Unfit),
    /// Another program has the memory open.
    #[error("memory is in use")]
    InUse,
    /// The memory could not be opened, made, read or written.
    #[error("the memory could not be written")]
    Unwritten,
}

impl Status {
    /// The exit status: 0 to 19.
    pub fn code(&self) -> u8
        ensures { result ≡ code_of self.now }
    {
        match self {
            Status::Done => 0,
            Status::Rejected => 1,
            Status::Words => 2,
            Status::Absent => 3,
            Status::ReadFault => 4,
            Status::WriteFault => 5,
            Status::Memory => 6,
            Status::Bad(fault) => fault.code(),
            Status::Spent => 15,
            Status::BadMemory(_) => 16,
            Status::InUse => 17,
            Status::Unwritten => 18,
        }
    }

    /// The answer to files that have no values.
    pub fn of_refusal(refusal: Refusal) -> Status
        ensures { result ≡ status_of_refusal refusal }
    {
        match refusal {
            Refusal::Absent => Status::Absent,
            Refusal::ReadFault => Status::ReadFault,
            Refusal::Memory => Status::Memory,
            Refusal::Bad(fault) => Status::Bad(fault),
        }
    }
}
