ghost use Rattle.std.specs.Prelude.{◌≡◌};
ghost use Rattle.desk_database.specs.declared.open_fault.OpenFault.TheVariants.{Memory};

use sqlite_trees::error::StoreError;
use std::alloc::AllocError;
use thiserror::Error;

/// Why a store could not be opened as a memory, or a memory made in it.
#[derive(Clone, Copy, Debug, PartialEq, Eq, Error)]
pub enum OpenFault {
    /// There was no memory for it.
    #[error("no memory")]
    Memory,
    /// It could not be read or written.
    #[error("the memory could not be read or written")]
    Failed,
    /// Its tables are not those of a memory.
    #[error("no memory of a desk")]
    Foreign,
    /// Its tables have no row: its making was cut off.
    #[error("no desk's memory yet")]
    Unfounded,
    /// It is the memory of a desk already.
    #[error("a desk's memory already")]
    Founded,
}

impl From<AllocError> for OpenFault {
    ghost from_gives = { λ error fault. fault ≡ Memory };

    fn from(_error: AllocError) -> OpenFault {
        OpenFault::Memory
    }
}

impl From<StoreError> for OpenFault {
    ghost use Rattle.desk_database.specs.TableOpening.{open_fault_of};

    ghost from_gives = { λ error fault. fault ≡ open_fault_of error };

    fn from(error: StoreError) -> OpenFault {
        match error {
            StoreError::OutOfMemory | StoreError::Unstorable => OpenFault::Memory,
            _ => OpenFault::Failed,
        }
    }
}
