ghost use Rattle.std.specs.{Prelude.{◌≡◌, List}, Result.result_err};
ghost use Rattle.desk_memory.specs.Entry.{Entry as EntryFields, with_entries};
ghost use Rattle.desk_cli.specs.Noting.{HasNoted};

use desk_memory::{Entry, EntryMemory, MemoryFault};

/// Notes entries behind those that a memory has, and has it keep them.
pub fn note_all<M: EntryMemory>(entries: &[Entry], memory: &mut M) -> Result<(), MemoryFault>
    ensures { (had : List EntryFields) → M.stands memory.old had
        → HasNoted M.Memory memory.old memory.new (with_entries had entries.now)
        (result_err result) }
{
    for entry in entries {
        memory.note_entry(entry)?;
    }
    memory.settle()
}
