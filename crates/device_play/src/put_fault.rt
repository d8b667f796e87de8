ghost use Rattle.std.specs.Prelude.{◌≡◌};
ghost use Rattle.device_play.specs.declared.put_fault.PutFault.TheVariants.{Write, Memory};

use outside_edge::Failed;
use std::alloc::AllocError;

/// Why a text was not put to its end.
#[derive(Clone, Copy, Debug, PartialEq, Eq)]
pub enum PutFault {
    /// The sink failed. A prefix of the text was put.
    Write,
    /// There was no memory, before the first byte or at a pair of lists.
    Memory,
}

impl From<AllocError> for PutFault {
    ghost from_gives = { λ _ fault. fault ≡ Memory };

    fn from(_error: AllocError) -> PutFault {
        PutFault::Memory
    }
}

impl From<Failed> for PutFault {
    ghost from_gives = { λ _ fault. fault ≡ Write };

    fn from(_fault: Failed) -> PutFault {
        PutFault::Write
    }
}
