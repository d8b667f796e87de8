ghost use Rattle.std.specs.Prelude.{◌≡◌, ◌≤◌};
ghost use Rattle.outside_edge.specs.Calls.{Rose};
ghost use Rattle.desk_memory.specs.declared.memory_fault.MemoryFault.TheVariants.{Failed};
ghost use Rattle.desk_database.specs.Table.{fault_of};

use desk_memory::MemoryFault;
use sqlite_trees::error::StoreError;

/// How a memory tells the error of its store.
pub fn fault_of(error: StoreError) -> MemoryFault
    ensures { result ≡ fault_of error }
{
    match error {
        StoreError::OutOfMemory | StoreError::Unstorable => MemoryFault::Memory,
        _ => MemoryFault::Failed,
    }
}

/// The count of failures after one more call with this fault: a lack of memory is none.
pub fn failures_after(failures: u64, fault: MemoryFault) -> u64
    ensures rose { fault ≡ Failed → Rose failures result }
    ensures kept { failures ≤ result }
{
    match fault {
        MemoryFault::Memory => failures,
        MemoryFault::Failed => failures.saturating_add(1),
    }
}
