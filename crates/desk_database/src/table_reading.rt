ghost use Rattle.std.specs.{Prelude.{◌≡◌, [], IfErr, IfNone, IfOk, IfSome, IsSome, IsTrue, OnOk}, Option.option_map};
ghost use Rattle.sqlite_disk.specs.Disk.{MoreFaults};
ghost use Rattle.sqlite_trees.specs.{declared.store.Shape.TheVariants.Table, View.{HasCause, IsClean, IsQuiet}};
ghost use Rattle.desk_memory.specs.Entry.{are_sized};
ghost use Rattle.desk_database.specs.{TableOpening.{HasNoDesk, HasNoEntries, HasReason, IsForeign, OnlyReads, Reads, rows_of_desk}, Rows.rows_from, Table.{HasTables, IsMemoryOf, IsOpened, IsUnfounded}};

use crate::open_fault::OpenFault;
use crate::row_entry::{desk_of, entry_of};
use desk_memory::Entry;
use sqlite_trees::error::StoreError;
use sqlite_trees::store::{Direction, Store};
use sqlite_value::row::Row;
use std::alloc::Global;

// Goes to the first row of a table.
fn begin<S: Store>(alloc: Global, store: &mut S, table: u32) -> Result<(), StoreError>
    requires { IsClean (S.view store.old) → (S.view store.old).shape table ≡ Table }
    ensures begun { OnOk result (IsClean (S.view store.new)
        → Reads (S.view store.old) (S.view store.new) ((S.view store.old).trees table)) }
    ensures live { OnOk result (IsSome ((S.view store.new).cursors 0)) }
    ensures cause { IsClean (S.view store.new) → IfErr result (HasCause (S.view store.old)
        (MoreFaults (S.faults store.old) (S.faults store.new)) ⊥) }
    ensures quiet { IsQuiet S.view S.faults S.recovers S.is_shielded store.old store.new }
{
    let key = Row::new(alloc);
    store.seek(0, table, &key, Direction::Forward)?;
    Ok(())
}

/// The entries in the table of devices, or why it is refused.
pub fn read_entries<S: Store>(alloc: Global, store: &mut S) -> Result<Vec<Entry>, OpenFault>
    requires table { IsClean (S.view store.old) → (S.view store.old).shape 0 ≡ Table }
    requires opened { IsClean (S.view store.old) → IsOpened (S.view store.old) }
    ensures read { IfOk result (λ entries. IsClean (S.view store.new)
        → (S.view store.old).trees 0 ≡ rows_from 0 entries.items) }
    ensures sized { IfOk result (λ entries. IsTrue (are_sized entries.items)) }
    ensures same { OnOk result (IsClean (S.view store.new)
        → OnlyReads (S.view store.old) (S.view store.new)) }
    ensures reason { IsClean (S.view store.new) → IfErr result (HasReason (S.view store.old)
        (MoreFaults (S.faults store.old) (S.faults store.new))
        (HasNoEntries ((S.view store.old).trees 0)) ⊥ ⊥) }
    ensures quiet { IsQuiet S.view S.faults S.recovers S.is_shielded store.old store.new }
{
    begin(alloc, store, 0)?;
    let mut entries = Vec::new(alloc);
    let mut row = Row::new(alloc);
    for place in 0..usize::MAX {
        if !store.next(0, &mut row)? {
            return Ok(entries);
        }
        let Some(entry) = entry_of(alloc, place, &row)? else {
            return Err(OpenFault::Foreign);
        };
        entries.reserve(1)?;
        entries.push_reserved(entry);
    }
    Err(OpenFault::Memory)
}

/// The name in the table of the desk, which has one row or none, or why it is refused.
pub fn read_desk<S: Store>(alloc: Global, store: &mut S) -> Result<Option<Vec<u8>>, OpenFault>
    requires table { IsClean (S.view store.old) → (S.view store.old).shape 1 ≡ Table }
    requires opened { IsClean (S.view store.old) → IsOpened (S.view store.old) }
    ensures read { IfOk result (λ desk. IsClean (S.view store.new)
        → (S.view store.old).trees 1 ≡ rows_of_desk (option_map (λ name. name.items) desk)) }
    ensures same { OnOk result (IsClean (S.view store.new)
        → OnlyReads (S.view store.old) (S.view store.new)) }
    ensures reason { IsClean (S.view store.new) → IfErr result (HasReason (S.view store.old)
        (MoreFaults (S.faults store.old) (S.faults store.new))
        (HasNoDesk ((S.view store.old).trees 1)) ⊥ ⊥) }
    ensures quiet { IsQuiet S.view S.faults S.recovers S.is_shielded store.old store.new }
{
    begin(alloc, store, 1)?;
    let mut row = Row::new(alloc);
    if !store.next(0, &mut row)? {
        return Ok(None);
    }
    let Some(desk) = desk_of(&row) else {
        return Err(OpenFault::Foreign);
    };
    let desk = desk.to_vec(alloc)?;
    if store.next(0, &mut row)? {
        return Err(OpenFault::Foreign);
    }
    Ok(Some(desk))
}

/// The desk and the entries of the memory in a store, or nothing where its tables have no row.
pub fn read_memory<S: Store>(
    alloc: Global,
    store: &mut S,
) -> Result<Option<(Vec<u8>, Vec<Entry>)>, OpenFault>
    requires tables { IsClean (S.view store.old) → HasTables (S.view store.old) }
    requires opened { IsClean (S.view store.old) → IsOpened (S.view store.old) }
    ensures none { IfOk result (λ found. IfNone found
        (IsClean (S.view store.new) → IsUnfounded (S.view store.old).trees)) }
    ensures some { IfOk result (λ found. IfSome found (λ memory. IsClean (S.view store.new)
        → IsMemoryOf (S.view store.old).trees memory.0.items memory.1.items)) }
    ensures sized { IfOk result (λ found. IfSome found (λ memory.
        IsTrue (are_sized memory.1.items))) }
    ensures same { OnOk result (IsClean (S.view store.new)
        → OnlyReads (S.view store.old) (S.view store.new)) }
    ensures reason { IsClean (S.view store.new) → IfErr result (HasReason (S.view store.old)
        (MoreFaults (S.faults store.old) (S.faults store.new))
        (IsForeign (S.view store.old).trees) ⊥ ⊥) }
    ensures quiet { IsQuiet S.view S.faults S.recovers S.is_shielded store.old store.new }
{
    let entries = read_entries(alloc, store)?;
    let desk = read_desk(alloc, store)?;
    match desk {
        Some(desk) => Ok(Some((desk, entries))),
        None if entries.is_empty() => Ok(None),
        None => Err(OpenFault::Foreign),
    }
}
