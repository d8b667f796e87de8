use desk_cli::MemoryFiles;
use desk_database::MemoryFileFault;
use desk_memory::{Entry, MemMemory, copy_of};
use std::alloc::{AllocError, Global};
use std::marker::Model;

/// The desk that a memory belongs to.
pub const DESK: &[u8] = b"north";

/// A memory in memory, opened or made by any name, or never.
#[derive(Drop)]
pub struct MemFiles {
    alloc: Global,
    is_opened: bool,
    entries: Vec<Entry>,
    // The calls of an opened memory that fail.
    failing: u64,
    fault: Option<MemoryFileFault>,
    faults: u64,
    closed: Option<MemMemory>,
}

impl Model for MemFiles {
    ghost use Rattle.program_tests.specs.MemFiles.{FilesInMemory};

    ghost Value = { FilesInMemory };

    ghost view = { λ files. record {
      is_opened = files.is_opened;
      entries = files.entries.items;
      fault = files.fault;
      faults = files.faults;
      closed = files.closed;
    } };
}

impl MemFiles {
    ghost use Rattle.std.specs.Prelude.{◌≡◌, ◌⊎◌, [], IfErr, IfOk, None, OnOk, Some, false, true};
    ghost use Rattle.outside_edge.specs.Calls.{Rose};
    ghost use Rattle.desk_database.specs.declared.memory_file_fault.MemoryFileFault.TheVariants.{InUse};

    /// A memory of these entries, whose call of this number fails once it is opened.
    pub fn new(alloc: Global, entries: Vec<Entry>, failing: u64) -> MemFiles
        ensures { result ≡ record {
          is_opened = false;
          entries = entries.items;
          fault = None;
          faults = 0;
          closed = None;
        } }
    {
        MemFiles {
            alloc,
            is_opened: false,
            entries,
            failing,
            fault: None,
            faults: 0,
            closed: None,
        }
    }

    /// One that is not opened, with this fault.
    pub fn refused(alloc: Global, fault: MemoryFileFault) -> MemFiles {
        MemFiles {
            alloc,
            is_opened: false,
            entries: Vec::new(alloc),
            failing: 0,
            fault: Some(fault),
            faults: 0,
            closed: None,
        }
    }

    // The memory, where there is memory for it.
    fn copy(&self) -> Result<MemMemory, AllocError>
        ensures entries { IfOk result (λ memory. memory.entries ≡ self.now.entries) }
        ensures settled { IfOk result (λ memory. memory.settled ≡ Some self.now.entries) }
    {
        let entries = copy_of(self.alloc, &self.entries)?;
        MemMemory::new(
            self.alloc,
            DESK.to_vec(self.alloc)?,
            entries,
            [self.failing].to_vec(self.alloc)?,
        )
    }

    // A new memory of a desk, where there is memory for it.
    fn made(&self, desk: &[u8]) -> Result<MemMemory, AllocError>
        ensures desk { IfOk result (λ memory. memory.desk ≡ desk.now) }
        ensures entries { IfOk result (λ memory. memory.entries ≡ []) }
        ensures unsettled { IfOk result (λ memory. memory.settled ≡ None) }
    {
        let desk = desk.to_vec(self.alloc)?;
        MemMemory::new_unsettled(self.alloc, desk, [self.failing].to_vec(self.alloc)?)
    }

    // Counts a call that is refused, where it is.
    fn refuse(&mut self) -> Result<(), MemoryFileFault>
        ensures first { OnOk result (self.old.is_opened ≡ false) }
        ensures opened { self.new.is_opened ≡ true }
        ensures fit { OnOk result (self.old.fault ≡ None) }
        ensures refused { IfErr result (λ fault. Rose self.old.faults self.new.faults
            × ((fault ≡ InUse) ⊎ (self.old.fault ≡ Some fault))) }
        ensures entries { self.new.entries ≡ self.old.entries }
        ensures fault { self.new.fault ≡ self.old.fault }
    {
        if self.is_opened {
            self.faults = self.faults.saturating_add(1);
            return Err(MemoryFileFault::InUse);
        }
        self.is_opened = true;
        if let Some(fault) = self.fault {
            self.faults = self.faults.saturating_add(1);
            return Err(fault);
        }
        Ok(())
    }
}

impl MemoryFiles<MemMemory> for MemFiles {
    ghost use Rattle.std.specs.Prelude.{◌≡◌, ◌⊎◌, None, Some, false};
    ghost use Rattle.outside_edge.specs.Calls.{Rose};
    ghost use Rattle.desk_database.specs.declared.memory_file_fault.MemoryFileFault.TheVariants.{InUse, OutOfMemory};

    ghost told = { record {
      is_unopened = λ files. files.is_opened ≡ false;
      fits = λ asked files name. files.fault ≡ None;
      fails = λ asked old new name fault.
          (fault ≡ OutOfMemory)
          ⊎ (Rose old.faults new.faults × ((fault ≡ InUse) ⊎ (old.fault ≡ Some fault)));
      finds = λ files name desk entries. entries ≡ files.entries;
      is_unharmed = λ files name. Unit {0};
      is_honest = λ files. Unit {0};
      left = λ files. files.closed;
    } };

    fn open(&mut self, _name: &str) -> Result<MemMemory, MemoryFileFault> {
        self.refuse()?;
        self.copy().map_err(|_| MemoryFileFault::OutOfMemory)
    }

    fn make(&mut self, _name: &str, desk: &[u8]) -> Result<MemMemory, MemoryFileFault> {
        self.refuse()?;
        self.made(desk).map_err(|_| MemoryFileFault::OutOfMemory)
    }

    fn close(&mut self, memory: MemMemory) {
        self.closed = Some(memory);
    }
}
