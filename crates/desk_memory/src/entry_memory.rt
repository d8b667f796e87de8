use crate::entry::Entry;
use crate::memory::Memory;
use crate::memory_fault::MemoryFault;

/// A memory of a desk, that tells its entries, and takes them as they are.
pub trait EntryMemory: Memory {
    ghost use Rattle.std.specs.Prelude.{◌≡◌, ℕ, List, OnOk};
    ghost use Rattle.desk_memory.specs.{Entry.{Entry as EntryFields, with_entry}, Kept.CountsOrLacks};

    /// The desk that it belongs to.
    ghost desk_of: { Self → List ℕ };

    /// The name of the desk that it belongs to.
    fn desk(&self) -> &[u8]
        ensures { result.now ≡ desk_of self.now };

    /// The entries, the oldest first.
    fn entries(&self) -> &[Entry]
        ensures { Self.stands self.now result.now };

    /// Notes an entry for the next `settle`.
    fn note_entry(&mut self, new: &Entry) -> Result<(), MemoryFault>
        ensures honest { Self.is_honest self.new → Self.is_honest self.old }
        ensures noted { OnOk result ((entries : List EntryFields) → Self.stands self.old entries
            → Self.stands self.new (with_entry entries new.now)) }
        ensures crash { (found : List EntryFields) → Self.may_leave self.new found
            → Self.may_leave self.old found }
        ensures counts { CountsOrLacks Self.faults Self.lacks self.old self.new result };
}
