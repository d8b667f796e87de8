use desk_database::MemoryFileFault;
use desk_memory::EntryMemory;

/// Memories that are opened or made by their names, one in all.
pub trait MemoryFiles<M: EntryMemory> {
    ghost use Rattle.std.specs.Prelude.{◌≡◌, List, Some, IfErr, IfOk};
    ghost use Rattle.desk_memory.specs.Entry.{Entry};
    ghost use Rattle.desk_cli.specs.MemoryFiles.{IsMade, IsOpened, IsUnopened, Making, Opening, ToldMemories};

    /// What is found in them.
    ghost told: { ToldMemories Self M };

    /// Opens the memory of a name.
    fn open(&mut self, name: &str) -> Result<M, MemoryFileFault>
        ensures once { IfOk result (λ memory. told.is_unopened self.old) }
        ensures tried { told.is_unopened self.new → ⊥ }
        ensures opened { IfOk result (λ memory. (entries : List Entry) → M.stands memory entries
            → IsOpened told M.Memory self.old name.now memory (M.desk_of memory) entries) }
        ensures unopened { IfErr result (λ fault.
            IsUnopened told Opening self.old self.new name.now fault) };

    /// Makes the memory of a name, of this desk. It is kept from its first `settle` on.
    fn make(&mut self, name: &str, desk: &[u8]) -> Result<M, MemoryFileFault>
        ensures once { IfOk result (λ memory. told.is_unopened self.old) }
        ensures tried { told.is_unopened self.new → ⊥ }
        ensures made { IfOk result (λ memory. IsMade told M.Memory self.old name.now memory) }
        ensures desk { IfOk result (λ memory. M.desk_of memory ≡ desk.now) }
        ensures unmade { IfErr result (λ fault.
            IsUnopened told Making self.old self.new name.now fault) };

    /// Closes the memory that was opened or made. As it is now it is left.
    fn close(&mut self, memory: M)
        ensures { told.left self.new ≡ Some memory };
}
