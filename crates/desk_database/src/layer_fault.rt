ghost use Rattle.std.specs.{Prelude.◌≡◌, IoError.error_kind};
ghost use Rattle.desk_database.specs.Fault.{fault_of_kind, fault_of_path, fault_of_probe, fault_of_store, fault_of_table};

use crate::memory_file_fault::MemoryFileFault;
use crate::open_fault::OpenFault;
use sqlite_store::OpenError;
use std::io::{self, ErrorKind};

/// The cause of a probe's error.
pub fn probe_fault(error: sqlite_wal::Error) -> MemoryFileFault
    ensures { result ≡ fault_of_probe error }
{
    match error {
        sqlite_wal::Error::OutOfMemory => MemoryFileFault::OutOfMemory,
        sqlite_wal::Error::Io(_) => MemoryFileFault::Disk,
        sqlite_wal::Error::Full => MemoryFileFault::Full,
        _ => MemoryFileFault::Foreign,
    }
}

/// The cause of an error of the store that is opened or made.
pub fn store_fault(error: OpenError) -> MemoryFileFault
    ensures { result ≡ fault_of_store error }
{
    match error {
        OpenError::OutOfMemory => MemoryFileFault::OutOfMemory,
        OpenError::Io => MemoryFileFault::Disk,
        OpenError::Full => MemoryFileFault::Full,
        OpenError::Refused => MemoryFileFault::Foreign,
    }
}

fn io_fault(error: &io::Error) -> MemoryFileFault
    ensures { result ≡ fault_of_kind (error_kind error.now) }
{
    match error.kind() {
        ErrorKind::OutOfMemory => MemoryFileFault::OutOfMemory,
        _ => MemoryFileFault::Place,
    }
}

/// The cause of an error of the path, with which no file was opened.
pub fn path_fault(error: sqlite_std_file::OpenError) -> MemoryFileFault
    ensures { result ≡ fault_of_path error }
{
    match error {
        sqlite_std_file::OpenError::OutOfMemory => MemoryFileFault::OutOfMemory,
        sqlite_std_file::OpenError::Busy => MemoryFileFault::InUse,
        sqlite_std_file::OpenError::HotJournal => MemoryFileFault::HotJournal,
        sqlite_std_file::OpenError::Io(error) => io_fault(&error),
    }
}

/// The cause of an error of the table.
pub fn table_fault(fault: OpenFault) -> MemoryFileFault
    ensures { result ≡ fault_of_table fault }
{
    match fault {
        OpenFault::Memory => MemoryFileFault::OutOfMemory,
        OpenFault::Failed => MemoryFileFault::Disk,
        OpenFault::Foreign => MemoryFileFault::Foreign,
        OpenFault::Unfounded => MemoryFileFault::Unfounded,
        OpenFault::Founded => MemoryFileFault::Founded,
    }
}
