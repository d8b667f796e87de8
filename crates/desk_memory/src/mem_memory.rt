ghost use Rattle.std.specs.Prelude.{◌≡◌, ◌↔◌, [], Contains, Err, IfOk, None, OnErr, OnOk, Some};
ghost use Rattle.sha2.specs.Sha256.{sha256};
ghost use Rattle.desk_memory.specs.{Entry.{with_entry, with_note}, Kept.CountsOrLacks, KeyMark.key_mark, declared.memory_fault.MemoryFault.TheVariants.Failed};

use crate::device_state::DeviceState;
use crate::entry::Entry;
use crate::entry_copy::copy_of;
use crate::entry_memory::EntryMemory;
use crate::entry_place::{place_for, set_entry};
use crate::key_mark::mark_of;
use crate::last_entry::home_in;
use crate::memory::Memory;
use crate::memory_fault::MemoryFault;
use outside_edge::{MemSink, Sink};
use std::alloc::{AllocError, Global};
use std::marker::Model;

/// A memory whose calls of some numbers fail, and of which a crash leaves what was settled.
#[derive(Drop)]
pub struct MemMemory {
    alloc: Global,
    desk: Vec<u8>,
    entries: Vec<Entry>,
    // None until it is settled.
    settled: Option<Vec<Entry>>,
    // Each call puts nothing there, and fails where that does.
    calls: MemSink,
}

impl Model for MemMemory {
    ghost use Rattle.std.specs.Option.{option_map};
    ghost use Rattle.desk_memory.specs.Entry.{MemoryInMemory};

    ghost Value = { MemoryInMemory };

    ghost view = { λ memory. record {
      desk = memory.desk.items;
      entries = memory.entries.items;
      settled = option_map (λ settled. settled.items) memory.settled;
      counts = memory.calls.counts;
    } };
}

impl MemMemory {
    /// A memory of this desk that was opened with these entries. It fails in the calls of these
    /// numbers, counted from 1.
    pub fn new(
        alloc: Global,
        desk: Vec<u8>,
        settled: Vec<Entry>,
        failing: Vec<u64>,
    ) -> Result<MemMemory, AllocError>
        ensures { IfOk result (λ memory. memory ≡ record {
          desk = desk.items;
          entries = settled.items;
          settled = Some settled.items;
          counts = record { failing = failing.items; calls = 0; faults = 0 };
        }) }
    {
        Ok(MemMemory {
            alloc,
            desk,
            entries: copy_of(alloc, &settled)?,
            settled: Some(settled),
            calls: MemSink::new(Vec::new(alloc), 0, 1, failing)?,
        })
    }

    /// A memory of this desk that was made, and is not settled yet.
    pub fn new_unsettled(
        alloc: Global,
        desk: Vec<u8>,
        failing: Vec<u64>,
    ) -> Result<MemMemory, AllocError>
        ensures { IfOk result (λ memory. memory ≡ record {
          desk = desk.items;
          entries = [];
          settled = None;
          counts = record { failing = failing.items; calls = 0; faults = 0 };
        }) }
    {
        Ok(MemMemory {
            alloc,
            desk,
            entries: Vec::new(alloc),
            settled: None,
            calls: MemSink::new(Vec::new(alloc), 0, 1, failing)?,
        })
    }

    // Counts a call, and fails where it is to fail.
    fn call(&mut self) -> Result<(), MemoryFault>
        ensures failed { (result ≡ Err Failed)
            ↔ Contains self.old.counts.failing self.new.counts.calls }
        ensures same { (self.new.entries ≡ self.old.entries)
            × (self.new.settled ≡ self.old.settled) }
        ensures counts { CountsOrLacks (λ memory. memory.counts.faults) (Unit {0})
            self.old self.new result }
    {
        if self.calls.put(b"").is_err() {
            return Err(MemoryFault::Failed);
        }
        Ok(())
    }

    // Puts an entry at its place.
    fn put(&mut self, entry: Entry) -> Result<(), AllocError>
        ensures put { OnOk result (self.new ≡ record self.old {
          entries = with_entry self.old.entries entry;
        }) }
        ensures kept { OnErr result (self.new ≡ self.old) }
    {
        let place = place_for(&self.entries, &entry);
        self.entries.reserve(1)?;
        set_entry(&mut self.entries, place, entry);
        Ok(())
    }
}

impl Memory for MemMemory {
    ghost stands = { λ memory entries. entries ≡ memory.entries };

    ghost may_leave = { λ memory found. memory.settled ≡ Some found };

    ghost is_honest = { λ memory. Unit {0} };

    ghost is_whole = { λ memory. Unit {0} };

    ghost faults = { λ memory. memory.counts.faults };

    ghost lacks = { Unit {0} };

    fn note(&mut self, name: &[u8], key: &[u8; 64], state: DeviceState) -> Result<(), MemoryFault>
        ensures noted { OnOk result (self.new.entries ≡ with_note self.old.entries
            (record { name = name.now; mark = key_mark sha256 key.now; state = state })) }
        ensures unnoted { OnErr result (self.new.entries ≡ self.old.entries) }
        ensures crash { self.new.settled ≡ self.old.settled }

        // It fails exactly in the calls that it is to fail in.
        ensures failed { (result ≡ Err Failed)
            ↔ Contains self.old.counts.failing self.new.counts.calls }
        ensures counts { CountsOrLacks (λ memory. memory.counts.faults) (Unit {0})
            self.old self.new result }
    {
        self.call()?;
        let home = home_in(&self.entries, name);
        let entry = Entry::new(self.alloc, name, &mark_of(key), state, home)?;
        self.put(entry)?;
        Ok(())
    }

    fn settle(&mut self) -> Result<(), MemoryFault>
        ensures same { self.new.entries ≡ self.old.entries }
        ensures kept { OnOk result (self.new.settled ≡ Some self.old.entries) }
        ensures crash { OnErr result (self.new.settled ≡ self.old.settled) }
        ensures failed { (result ≡ Err Failed)
            ↔ Contains self.old.counts.failing self.new.counts.calls }
        ensures counts { CountsOrLacks (λ memory. memory.counts.faults) (Unit {0})
            self.old self.new result }
    {
        self.call()?;
        self.settled = Some(copy_of(self.alloc, &self.entries)?);
        Ok(())
    }
}

impl EntryMemory for MemMemory {
    ghost desk_of = { λ memory. memory.desk };

    fn desk(&self) -> &[u8] {
        &self.desk
    }

    /// With all that was noted.
    fn entries(&self) -> &[Entry]
        ensures { result.now ≡ self.now.entries }
    {
        &self.entries
    }

    fn note_entry(&mut self, new: &Entry) -> Result<(), MemoryFault> {
        self.call()?;
        let entry = new.copy(self.alloc)?;
        self.put(entry)?;
        Ok(())
    }
}
