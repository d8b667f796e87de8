ghost use Rattle.std.specs.Prelude.{◌≡◌, ◌↔◌, [], IfErr, IfOk, IsTrue, OnOk};
ghost use Rattle.sqlite_disk.specs.Disk.{MoreFaults};
ghost use Rattle.sqlite_trees.specs.{Tree.Trees, View.{IsClean, IsQuiet}};
ghost use Rattle.desk_memory.specs.Entry.{are_sized};
ghost use Rattle.desk_database.specs.{TableOpening.{HasReason, IsForeign, KeepsRows, OnlyReads}, Table.{HasRows, HasTables, IsFaulty, IsFounded, IsMemoryOf, IsOpened, IsTableOf, IsUnfounded}, Log.{with_next_version, with_first_version}};

use crate::counted_commit::{commit_counted, commit_first, count_opening};
use crate::entry_row::{desk_row, row_of};
use crate::logged::Logged;
use crate::open_fault::OpenFault;
use crate::store_fault::{failures_after, fault_of};
use crate::table_reading::read_memory;
use desk_memory::{
    DeviceState, Entry, EntryMemory, Memory, MemoryFault, home_in, mark_of, place_for, set_entry,
};
use sqlite_trees::store::{Shape, Store};
use std::alloc::Global;

/// The states of a desk's devices in the tables of a store. Once a call of the store has failed
/// each call fails: the memory is opened anew.
#[derive(Drop)]
pub struct StoreMemory<S: Logged + Drop> {
    alloc: Global,
    store: S,
    desk: Vec<u8>,
    entries: Vec<Entry>,
    // Why a call of the store has failed.
    fault: Option<MemoryFault>,
    // How often a call of the memory has failed by a fault.
    failures: u64,
    ghost whole: { IsTableOf fault (S.Store.view store) desk.items entries.items },
    ghost sized: { IsTrue (are_sized entries.items) },
    ghost faulty: { IsFaulty fault (S.Store.view store) (S.Store.faults store) },
}

// Whether a store has a table of devices and one of the desk.
fn has_tables<S: Store>(store: &S) -> bool
    ensures { IsTrue result ↔ HasTables (S.view store.now) }
{
    matches!(store.shape(0), Shape::Table) && matches!(store.shape(1), Shape::Table)
}

// Whether a store has the tables of a memory that has no desk yet.
fn see_unfounded<S: Store>(alloc: Global, store: &mut S) -> Result<(), OpenFault>
    requires { IsClean (S.view store.old) → IsOpened (S.view store.old) }
    ensures unfounded { OnOk result (IsClean (S.view store.new)
        → HasTables (S.view store.old) × IsUnfounded (S.view store.old).trees) }
    ensures same { OnOk result (IsClean (S.view store.new)
        → OnlyReads (S.view store.old) (S.view store.new)) }
    ensures reason { IsClean (S.view store.new) → IfErr result (HasReason (S.view store.old)
        (MoreFaults (S.faults store.old) (S.faults store.new))
        (HasTables (S.view store.old) → IsForeign (S.view store.old).trees)
        ⊥ (IsFounded (S.view store.old).trees)) }
    ensures quiet { IsQuiet S.view S.faults S.recovers S.is_shielded store.old store.new }
{
    if !has_tables(store) {
        return Err(OpenFault::Foreign);
    }
    match read_memory(alloc, store)? {
        None => Ok(()),
        Some(_) => Err(OpenFault::Founded),
    }
}

// The desk and the entries of the memory in a store.
fn see_founded<S: Store>(alloc: Global, store: &mut S) -> Result<(Vec<u8>, Vec<Entry>), OpenFault>
    requires { IsClean (S.view store.old) → IsOpened (S.view store.old) }
    ensures founded { IfOk result (λ memory. IsClean (S.view store.new)
        → HasTables (S.view store.old)
        × IsMemoryOf (S.view store.old).trees memory.0.items memory.1.items) }
    ensures sized { IfOk result (λ memory. IsTrue (are_sized memory.1.items)) }
    ensures same { OnOk result (IsClean (S.view store.new)
        → OnlyReads (S.view store.old) (S.view store.new)) }
    ensures reason { IsClean (S.view store.new) → IfErr result (HasReason (S.view store.old)
        (MoreFaults (S.faults store.old) (S.faults store.new))
        (HasTables (S.view store.old) → IsForeign (S.view store.old).trees)
        (IsUnfounded (S.view store.old).trees) ⊥) }
    ensures quiet { IsQuiet S.view S.faults S.recovers S.is_shielded store.old store.new }
{
    if !has_tables(store) {
        return Err(OpenFault::Foreign);
    }
    match read_memory(alloc, store)? {
        None => Err(OpenFault::Unfounded),
        Some(memory) => Ok(memory),
    }
}

// Puts the row of the desk of a name into a store without one, whose version becomes this one, or
// the next where it has one.
fn begin_desk<S: Logged>(
    alloc: Global,
    store: &mut S,
    desk: &[u8],
    version: u32,
) -> Result<(), OpenFault>
    requires { IsClean (S.Store.view store.old) → IsOpened (S.Store.view store.old) }
    ensures put { OnOk result (IsClean (S.Store.view store.new)
        → HasRows (S.Store.view store.new) desk.now []) }
    ensures unfounded { OnOk result (IsClean (S.Store.view store.new)
        → IsUnfounded (S.Store.view store.old).trees) }
    ensures committed { OnOk result (IsClean (S.Store.view store.new) → (db : Trees)
        → S.Store.recovers store.new db
        → db ≡ with_first_version (S.Store.view store.old).trees version) }
    ensures reason { IsClean (S.Store.view store.new) → IfErr result
        (HasReason (S.Store.view store.old)
        (MoreFaults (S.Store.faults store.old) (S.Store.faults store.new))
        (HasTables (S.Store.view store.old) → IsForeign (S.Store.view store.old).trees)
        ⊥ (IsFounded (S.Store.view store.old).trees)) }
    ensures shield { OnOk result
        (S.Store.is_shielded store.old → S.Store.is_shielded store.new) }
    ensures kept { KeepsRows S.Store.view S.Store.faults S.Store.recovers
        store.old store.new }
{
    see_unfounded(alloc, store)?;
    let row = desk_row(alloc, desk)?;
    store.copy_log()?;
    commit_first(store, version)?;
    store.put(1, &row)?;
    Ok(())
}

// Reads the memory in a store, and counts its opening.
fn open_desk<S: Logged>(alloc: Global, store: &mut S) -> Result<(Vec<u8>, Vec<Entry>), OpenFault>
    requires { IsClean (S.Store.view store.old) → IsOpened (S.Store.view store.old) }
    ensures has { IfOk result (λ memory. IsClean (S.Store.view store.new)
        → HasRows (S.Store.view store.new) memory.0.items memory.1.items) }
    ensures found { IfOk result (λ memory. IsClean (S.Store.view store.new)
        → IsMemoryOf (S.Store.view store.old).trees memory.0.items memory.1.items) }
    ensures sized { IfOk result (λ memory. IsTrue (are_sized memory.1.items)) }
    ensures committed { OnOk result (IsClean (S.Store.view store.new) → (db : Trees)
        → S.Store.recovers store.new db
        → db ≡ with_next_version (with_next_version (S.Store.view store.old).trees)) }
    ensures copied { OnOk result (S.is_copied store.new) }
    ensures reason { IsClean (S.Store.view store.new) → IfErr result
        (HasReason (S.Store.view store.old)
        (MoreFaults (S.Store.faults store.old) (S.Store.faults store.new))
        (HasTables (S.Store.view store.old) → IsForeign (S.Store.view store.old).trees)
        (IsUnfounded (S.Store.view store.old).trees) ⊥) }
    ensures shield { OnOk result
        (S.Store.is_shielded store.old → S.Store.is_shielded store.new) }
    ensures kept { KeepsRows S.Store.view S.Store.faults S.Store.recovers
        store.old store.new }
{
    let memory = see_founded(alloc, store)?;
    count_opening(store)?;
    Ok(memory)
}

impl<S: Logged + Drop> StoreMemory<S> {
    ghost use Rattle.std.specs.Prelude.{◌≡◌, ◌⊎◌, ◌≤◌, [], None, IfErr, IfOk, IfSome, IsTrue, OnOk};
    ghost use Rattle.sqlite_trees.specs.View.{doubt};
    ghost use Rattle.desk_memory.specs.{declared.memory_fault.MemoryFault.TheVariants.Failed, Entry.{with_entry, is_sized}, Kept.CountsOrLacks};

    /// Opens the memory in a store that was just opened. It changes no row, and counts two commits.
    /// A store that it refuses is handed back.
    pub fn open(alloc: Global, mut store: S) -> Result<StoreMemory<S>, (OpenFault, S)>
        requires { IsClean (S.Store.view store) → IsOpened (S.Store.view store) }
        ensures clean { IfOk result (λ memory. doubt (S.Store.view store).is_clean
            ≤ doubt (S.Store.view memory.store).is_clean) }
        ensures found { IfOk result (λ memory. IsClean (S.Store.view memory.store)
            → IsMemoryOf (S.Store.view store).trees memory.desk.items memory.entries.items) }
        ensures sized { IfOk result (λ memory. IsTrue (are_sized memory.entries.items)) }
        ensures committed { IfOk result (λ memory. IsClean (S.Store.view memory.store)
            → (db : Trees) → S.Store.recovers memory.store db
            → db ≡ with_next_version (with_next_version (S.Store.view store).trees)) }
        ensures copied { IfOk result (λ memory. S.is_copied memory.store) }
        ensures shield { IfOk result (λ memory. S.Store.is_shielded store
            → S.Store.is_shielded memory.store) }
        ensures reason { IfErr result (λ refused. IsClean (S.Store.view refused.1)
            → HasReason (S.Store.view store)
            (MoreFaults (S.Store.faults store) (S.Store.faults refused.1))
            (HasTables (S.Store.view store) → IsForeign (S.Store.view store).trees)
            (IsUnfounded (S.Store.view store).trees) ⊥ refused.0) }
        ensures kept { IfErr result (λ refused. KeepsRows S.Store.view S.Store.faults
            S.Store.recovers store refused.1) }
    {
        match open_desk(alloc, &mut store) {
            Ok((desk, entries)) => Ok(StoreMemory {
                alloc,
                store,
                desk,
                entries,
                fault: None,
                failures: 0,
            }),
            Err(fault) => Err((fault, store)),
        }
    }

    /// Makes a memory of the desk of this name in a store that was just opened, whose tables have
    /// no row. Nothing of it is committed before it is settled but the version: this one, or the
    /// next where the store has one. A store that it refuses is handed back.
    pub fn make(
        alloc: Global,
        mut store: S,
        desk: &[u8],
        version: u32,
    ) -> Result<StoreMemory<S>, (OpenFault, S)>
        requires { IsClean (S.Store.view store) → IsOpened (S.Store.view store) }
        ensures clean { IfOk result (λ memory. doubt (S.Store.view store).is_clean
            ≤ doubt (S.Store.view memory.store).is_clean) }
        ensures desk { IfOk result (λ memory. memory.desk.items ≡ desk.now) }
        ensures entries { IfOk result (λ memory. memory.entries.items ≡ []) }
        ensures unfounded { IfOk result (λ memory. IsClean (S.Store.view memory.store)
            → IsUnfounded (S.Store.view store).trees) }
        ensures committed { IfOk result (λ memory. IsClean (S.Store.view memory.store)
            → (db : Trees) → S.Store.recovers memory.store db
            → db ≡ with_first_version (S.Store.view store).trees version) }
        ensures shield { IfOk result (λ memory. S.Store.is_shielded store
            → S.Store.is_shielded memory.store) }
        ensures reason { IfErr result (λ refused. IsClean (S.Store.view refused.1)
            → HasReason (S.Store.view store)
            (MoreFaults (S.Store.faults store) (S.Store.faults refused.1))
            (HasTables (S.Store.view store) → IsForeign (S.Store.view store).trees)
            ⊥ (IsFounded (S.Store.view store).trees) refused.0) }
        ensures kept { IfErr result (λ refused. KeepsRows S.Store.view S.Store.faults
            S.Store.recovers store refused.1) }
    {
        let Ok(name) = desk.to_vec(alloc) else {
            return Err((OpenFault::Memory, store));
        };
        match begin_desk(alloc, &mut store, desk, version) {
            Ok(()) => Ok(StoreMemory {
                alloc,
                store,
                desk: name,
                entries: Vec::new(alloc),
                fault: None,
                failures: 0,
            }),
            Err(fault) => Err((fault, store)),
        }
    }

    /// Its store, where no call has failed. What was not settled is not committed.
    pub fn close(self) -> Option<S>
        ensures { IfSome result (λ store. (store ≡ self.store) × (self.fault ≡ None)) }
    {
        let StoreMemory {
            alloc: _,
            store,
            desk: _,
            entries: _,
            fault,
            failures: _,
        } = self;
        match fault {
            None => Some(store),
            Some(_) => None,
        }
    }

    /// Puts an entry, for the next commit.
    pub fn put_entry(&mut self, new: Entry) -> Result<(), MemoryFault>
        requires { IsTrue (is_sized new) }
        ensures clean { doubt (S.Store.view self.old.store).is_clean
            ≤ doubt (S.Store.view self.new.store).is_clean }
        ensures noted { OnOk result
            (self.new.entries.items ≡ with_entry self.old.entries.items new) }
        ensures desk { self.new.desk ≡ self.old.desk }
        ensures crash { (db : Trees) → S.Store.recovers self.new.store db
            → S.Store.recovers self.old.store db }
        ensures counts { CountsOrLacks (λ (memory : _). memory.failures) (Unit {0})
            self.old self.new result }
        ensures cause { self.old.fault ≡ None → IsClean (S.Store.view self.new.store)
            → IfErr result (λ fault. fault ≡ Failed → MoreFaults
            (S.Store.faults self.old.store) (S.Store.faults self.new.store)) }
    {
        if let Some(fault) = self.fault {
            self.failures = failures_after(self.failures, fault);
            return Err(fault);
        }
        let place = place_for(&self.entries, &new);
        let row = row_of(self.alloc, place, &new)?;
        self.entries.reserve(1)?;
        if let Err(error) = self.store.put(0, &row) {
            let fault = fault_of(error);
            self.fault = Some(fault);
            self.failures = failures_after(self.failures, fault);
            return Err(fault);
        }
        set_entry(&mut self.entries, place, new);
        Ok(())
    }

    /// Commits what was noted. At `Ok` it is on the disk, counted, and no page is in the log.
    pub fn settle_all(&mut self) -> Result<(), MemoryFault>
        ensures clean { doubt (S.Store.view self.old.store).is_clean
            ≤ doubt (S.Store.view self.new.store).is_clean }
        ensures same { OnOk result (self.new.entries.items ≡ self.old.entries.items) }
        ensures desk { self.new.desk ≡ self.old.desk }
        ensures durable { OnOk result (IsClean (S.Store.view self.new.store)
            → (db : Trees) → S.Store.recovers self.new.store db
            → IsMemoryOf db self.old.desk.items self.old.entries.items) }
        ensures with_next_version { OnOk result (IsClean (S.Store.view self.new.store)
            → (db : Trees) → S.Store.recovers self.new.store db
            → db ≡ with_next_version (S.Store.view self.old.store).trees) }
        ensures whole { OnOk result (S.is_copied self.new.store) }
        ensures crash { IsClean (S.Store.view self.new.store)
            → (db : Trees) → S.Store.recovers self.new.store db
            → S.Store.recovers self.old.store db
            ⊎ IsMemoryOf db self.old.desk.items self.old.entries.items }
        ensures counts { CountsOrLacks (λ (memory : _). memory.failures) (Unit {0})
            self.old self.new result }
        ensures cause { self.old.fault ≡ None → IsClean (S.Store.view self.new.store)
            → IfErr result (λ fault. fault ≡ Failed → MoreFaults
            (S.Store.faults self.old.store) (S.Store.faults self.new.store)) }
    {
        if let Some(fault) = self.fault {
            self.failures = failures_after(self.failures, fault);
            return Err(fault);
        }
        if let Err(error) = commit_counted(&mut self.store) {
            let fault = fault_of(error);
            self.fault = Some(fault);
            self.failures = failures_after(self.failures, fault);
            return Err(fault);
        }
        Ok(())
    }
}

impl<S: Logged + Drop> Memory for StoreMemory<S> {
    ghost use Rattle.std.specs.Prelude.{◌≡◌};
    ghost use Rattle.sqlite_trees.specs.View.{IsClean};
    ghost use Rattle.desk_database.specs.Table.{FindsEntries};

    ghost stands = { λ memory entries. entries ≡ memory.entries.items };

    ghost may_leave = { λ memory.
        FindsEntries (S.Store.recovers memory.store) memory.desk.items };

    ghost is_honest = { λ memory. IsClean (S.Store.view memory.store) };

    ghost is_whole = { λ memory. S.is_copied memory.store };

    ghost faults = { λ memory. memory.failures };

    ghost lacks = { Unit {0} };

    fn note(&mut self, name: &[u8], key: &[u8; 64], state: DeviceState) -> Result<(), MemoryFault> {
        let home = home_in(&self.entries, name);
        let entry = Entry::new(self.alloc, name, &mark_of(key), state, home)?;
        self.put_entry(entry)
    }

    fn settle(&mut self) -> Result<(), MemoryFault> {
        self.settle_all()?;
        Ok(())
    }
}

impl<S: Logged + Drop> EntryMemory for StoreMemory<S> {
    ghost desk_of = { λ memory. memory.desk.items };

    fn desk(&self) -> &[u8] {
        &self.desk
    }

    fn entries(&self) -> &[Entry] {
        &self.entries
    }

    fn note_entry(&mut self, new: &Entry) -> Result<(), MemoryFault> {
        let entry = new.copy(self.alloc)?;
        self.put_entry(entry)
    }
}
