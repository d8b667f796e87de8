ghost use Rattle.std.specs.Prelude.{◌≡◌};
ghost use Rattle.debug_link.specs.declared.answer_fault.AnswerFault.TheVariants.{Write, Memory};

use outside_edge::Failed;
use std::alloc::AllocError;

/// Why a packet was not answered to its end.
#[derive(Clone, Copy, Debug, PartialEq, Eq)]
pub enum AnswerFault {
    /// The sink failed.
    Write,
    /// There was no memory for the answer.
    Memory,
}

impl From<AllocError> for AnswerFault {
    ghost from_gives = { λ _ fault. fault ≡ Memory };

    fn from(_error: AllocError) -> AnswerFault {
        AnswerFault::Memory
    }
}

impl From<Failed> for AnswerFault {
    ghost from_gives = { λ _ fault. fault ≡ Write };

    fn from(_fault: Failed) -> AnswerFault {
        AnswerFault::Write
    }
}
