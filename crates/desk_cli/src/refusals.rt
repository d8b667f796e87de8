ghost use Rattle.desk_cli.specs.StoreFiles.{IsCounted};

use desk_database::MemoryFileFault;

/// How often the path of a memory was refused.
#[derive(Clone, Copy, Debug)]
pub struct Refusals {
    /// There is none of this name.
    pub missing: u64,
    /// None can be there.
    pub places: u64,
    /// It is in use.
    pub locks: u64,
    /// A hot journal lies beside it.
    pub journals: u64,
}

impl Refusals {
    pub fn none() -> Refusals {
        Refusals {
            missing: 0,
            places: 0,
            locks: 0,
            journals: 0,
        }
    }

    /// Counts a refusal.
    pub fn count(&mut self, fault: MemoryFileFault)
        ensures { IsCounted self.old self.new fault }
    {
        match fault {
            MemoryFileFault::Missing => self.missing = self.missing.saturating_add(1),
            MemoryFileFault::Place => self.places = self.places.saturating_add(1),
            MemoryFileFault::InUse => self.locks = self.locks.saturating_add(1),
            MemoryFileFault::HotJournal => self.journals = self.journals.saturating_add(1),
            _ => {}
        }
    }
}
