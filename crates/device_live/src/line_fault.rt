ghost use Rattle.std.specs.Prelude.{◌≡◌};
ghost use Rattle.device_live.specs.{declared.line_fault.LineFault.TheVariants.Write, Faults.fault_of};

use outside_edge::Failed;
use std::alloc::AllocError;
use text_scan::{FaultKind, WordFault};

/// Why a line is not answered.
#[derive(Clone, Copy, Debug, PartialEq, Eq)]
pub enum LineFault {
    /// It can't be read, or can't be done.
    Kind(FaultKind),
    /// There was no memory for what it says.
    Memory(AllocError),
    /// The sink failed within its answer.
    Write(Failed),
}

impl From<WordFault> for LineFault {
    ghost from_gives = { λ word fault. fault ≡ fault_of word };

    fn from(fault: WordFault) -> LineFault {
        match fault {
            WordFault::Kind(kind) => LineFault::Kind(kind),
            WordFault::Memory(error) => LineFault::Memory(error),
        }
    }
}

impl From<Failed> for LineFault {
    ghost from_gives = { λ failed fault. fault ≡ Write failed };

    fn from(failed: Failed) -> LineFault {
        LineFault::Write(failed)
    }
}
