ghost use Rattle.std.specs.Prelude.{◌≡◌};
ghost use Rattle.debug_cli.specs.Status.{status_of, talk_status};

use debug_link::TalkEnd;
use input_files::Status;
use source_server::Served;
use std::alloc::AllocError;

/// An end of its own of whoever serves a source.
pub trait OwnEnd: Copy {
    ghost use Rattle.input_files.specs.declared.status.Status.{Status};

    /// What is answered to it.
    ghost answer: { Self → Status };

    fn status(self) -> Status
        ensures { result ≡ answer self };
}

impl OwnEnd for TalkEnd {
    ghost answer = { talk_status };

    fn status(self) -> Status {
        match self {
            TalkEnd::Closed => Status::Done,
            TalkEnd::Memory => Status::Memory,
        }
    }
}

impl OwnEnd for AllocError {
    ghost use Rattle.input_files.specs.declared.status.Status.TheVariants.{Memory};

    ghost answer = { λ error. Memory };

    fn status(self) -> Status {
        Status::Memory
    }
}

/// The answer once a source was served.
pub fn served_status<O: OwnEnd>(served: Served<O>) -> Status
    ensures { result ≡ status_of O.answer served }
{
    match served {
        Served::Done => Status::Done,
        Served::Spent => Status::Spent,
        Served::ReadFault => Status::ReadFault,
        Served::WriteFault => Status::WriteFault,
        Served::Own(own) => own.status(),
    }
}
