ghost use Rattle.std.specs.Prelude.{◌≡◌};
ghost use Rattle.verifier_desk.specs.declared.answer_fault.AnswerFault.TheVariants.{Memory, Unkept};

use desk_memory::MemoryFault;
use std::alloc::AllocError;
use thiserror::Error;

/// Why a line was not answered.
#[derive(Clone, Copy, Debug, PartialEq, Eq, Error)]
pub enum AnswerFault {
    /// There was no memory for a report.
    #[error("no memory")]
    Memory,
    /// The desk's memory failed.
    #[error("{0}")]
    Unkept(MemoryFault),
}

impl From<AllocError> for AnswerFault {
    ghost from_gives = { λ error fault. fault ≡ Memory };

    fn from(_error: AllocError) -> AnswerFault {
        AnswerFault::Memory
    }
}

impl From<MemoryFault> for AnswerFault {
    ghost from_gives = { λ unkept fault. fault ≡ Unkept unkept };

    fn from(fault: MemoryFault) -> AnswerFault {
        AnswerFault::Unkept(fault)
    }
}
