use crate::memory_file_fault::MemoryFileFault;
use sqlite_disk::{Disk, Files};

/// The files of memories, by their names.
pub trait MemoryPlaces<D: Disk> {
    ghost use Rattle.std.specs.Prelude.{ℕ, List, IfErr, IfOk, IsTrue};
    ghost use Rattle.sqlite_wal.specs.Recovery.{Image};
    ghost use Rattle.desk_database.specs.{Fault.IsOfPath, Opening.AreFresh};

    /// What the log and the database of a name hold.
    ghost image: { List ℕ → Image };

    /// Opens the files of a name. None is made where no database is.
    fn open(&mut self, name: &str) -> Result<Files<D>, MemoryFileFault>
        ensures log { IfOk result (λ files. IsTrue (D.Disk.is_usable files.log)) }
        ensures db { IfOk result (λ files. IsTrue (D.Disk.is_usable files.db)) }
        ensures fresh { IfOk result (λ files. AreFresh D.Disk (image name.now) files) }
        ensures refused { IfErr result IsOfPath };

    /// Opens the files of a name, which are made where there are none.
    fn make(&mut self, name: &str) -> Result<Files<D>, MemoryFileFault>
        ensures log { IfOk result (λ files. IsTrue (D.Disk.is_usable files.log)) }
        ensures db { IfOk result (λ files. IsTrue (D.Disk.is_usable files.db)) }
        ensures fresh { IfOk result (λ files. AreFresh D.Disk (image name.now) files) }
        ensures refused { IfErr result IsOfPath };

    /// Lets the files of a name go, in whose log no page is, and removes the log. Where that fails
    /// nothing is lost.
    fn close(&mut self, name: &str, files: Files<D>);

    /// A random number.
    fn seed(&mut self) -> Result<u64, MemoryFileFault>
        ensures refused { IfErr result IsOfPath };
}
