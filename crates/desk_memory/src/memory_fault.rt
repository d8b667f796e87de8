ghost use Rattle.std.specs.Prelude.{◌≡◌};
ghost use Rattle.desk_memory.specs.declared.memory_fault.MemoryFault.TheVariants.{Memory};

use std::alloc::AllocError;
use thiserror::Error;

/// Why a state could not be kept.
#[derive(Clone, Copy, Debug, PartialEq, Eq, Error)]
pub enum MemoryFault {
    /// There was no memory for it.
    #[error("no memory")]
    Memory,
    /// It could not be written.
    #[error("the memory could not be written")]
    Failed,
}

impl From<AllocError> for MemoryFault {
    ghost from_gives = { λ error fault. fault ≡ Memory };

    fn from(_error: AllocError) -> MemoryFault {
        MemoryFault::Memory
    }
}
