ghost use Rattle.std.specs.Prelude.{◌≡◌, [], None, IsTrue, IfErr, IfOk, IfSome};
ghost use Rattle.sqlite_trees.specs.{Tree.Trees, View.IsClean};
ghost use Rattle.sqlite_store.specs.FileStore.{log_frames, recovers, view};
ghost use Rattle.desk_database.specs.{Fault.IsOfPath, Held.{IsKept, IsSpared}, Opening.{FailsAs, IsCleanLeft, IsMadeOver, IsOpenOver, IsRefused, Leaves, WhyUnmade, WhyUnopened, image_of}};

use crate::layer_fault::table_fault;
use crate::left::Left;
use crate::memory_file_fault::MemoryFileFault;
use crate::memory_places::MemoryPlaces;
use crate::memory_store::{make_store, open_store};
use crate::store_memory::StoreMemory;
use sqlite_disk::{Disk, Files};
use sqlite_store::FileStore;
use sqlite_trees::store::Store;
use std::alloc::Global;

/// How many user versions there are but 0, which a file has before any commit of a memory.
const VERSIONS: u64 = 0xffff_ffff;

/// Opens the memory in these files. `seed` is random.
pub fn open_files<D: Disk + Drop>(
    alloc: Global,
    files: Files<D>,
    seed: u64,
) -> Result<StoreMemory<FileStore<D>>, (MemoryFileFault, Left<D>)>
    requires log { IsTrue (D.Disk.is_usable files.log) }
    requires db { IsTrue (D.Disk.is_usable files.db) }
    ensures opened { IfOk result (λ memory. IsClean (view memory.store) → IsOpenOver
        (image_of D.Disk files) memory.store memory.desk.items memory.entries.items) }
    ensures refused { IfErr result (λ e. IsRefused WhyUnopened IsSpared files e.0 e.1) }
{
    let store = open_store(alloc, files, seed)?;
    match StoreMemory::open(alloc, store) {
        Ok(memory) => Ok(memory),
        Err((fault, store)) => Err((table_fault(fault), Left::Store(store))),
    }
}

/// Makes a memory of the desk of this name in these files, without an entry: nothing of it is
/// committed before it is settled. `seed` is random.
pub fn make_files<D: Disk + Drop>(
    alloc: Global,
    files: Files<D>,
    desk: &[u8],
    seed: u64,
) -> Result<StoreMemory<FileStore<D>>, (MemoryFileFault, Left<D>)>
    requires log { IsTrue (D.Disk.is_usable files.log) }
    requires db { IsTrue (D.Disk.is_usable files.db) }
    ensures desk { IfOk result (λ memory. memory.desk.items ≡ desk.now) }
    ensures entries { IfOk result (λ memory. memory.entries.items ≡ []) }
    ensures made { IfOk result (λ memory. IsClean (view memory.store)
        → IsMadeOver (image_of D.Disk files) memory.store) }
    ensures refused { IfErr result (λ e. IsRefused WhyUnmade IsKept files e.0 e.1) }
{
    let store = make_store(alloc, files, seed)?;
    match StoreMemory::make(alloc, store, desk, (seed % VERSIONS + 1) as u32) {
        Ok(memory) => Ok(memory),
        Err((fault, store)) => Err((table_fault(fault), Left::Store(store))),
    }
}

/// Opens the memory of a name. An error comes with what is left of the files, once they were
/// opened.
pub fn open_memory<D: Disk + Drop, P: MemoryPlaces<D>>(
    alloc: Global,
    name: &str,
    places: &mut P,
) -> Result<StoreMemory<FileStore<D>>, (MemoryFileFault, Option<Left<D>>)>
    ensures opened { IfOk result (λ memory. IsClean (view memory.store) → IsOpenOver
        (P.image name.now) memory.store memory.desk.items memory.entries.items) }

    // With no file opened it is a fault of the path.
    ensures unopened { IfErr result (λ e. e.1 ≡ None → IsOfPath e.0) }

    // Files that were opened are refused for a cause, and hold what they held, whenever the call
    // is cut off.
    ensures cause { IfErr result (λ e. IfSome e.1 (λ left. IsCleanLeft left
        → FailsAs WhyUnopened 0 (P.image name.now) left e.0)) }
    ensures spared { IfErr result (λ e. IfSome e.1 (λ left. IsCleanLeft left → Leaves IsSpared
        (λ after. after ≡ P.image name.now) (P.image name.now) left)) }
{
    let files = match places.open(name) {
        Ok(files) => files,
        Err(fault) => return Err((fault, None)),
    };
    let seed = places.seed().map_err(|fault| (fault, None))?;
    match open_files(alloc, files, seed) {
        Ok(memory) => Ok(memory),
        Err((fault, left)) => Err((fault, Some(left))),
    }
}

/// Makes the memory of a name, of the desk of this name, without an entry. Nothing of it is
/// committed before it is settled: until then a crash leaves no desk's memory there. An error comes
/// with what is left of the files, once they were opened.
pub fn make_memory<D: Disk + Drop, P: MemoryPlaces<D>>(
    alloc: Global,
    name: &str,
    desk: &[u8],
    places: &mut P,
) -> Result<StoreMemory<FileStore<D>>, (MemoryFileFault, Option<Left<D>>)>
    ensures desk { IfOk result (λ memory. memory.desk.items ≡ desk.now) }
    ensures entries { IfOk result (λ memory. memory.entries.items ≡ []) }
    ensures made { IfOk result (λ memory. IsClean (view memory.store)
        → IsMadeOver (P.image name.now) memory.store) }
    ensures unmade { IfErr result (λ e. e.1 ≡ None → IsOfPath e.0) }
    ensures cause { IfErr result (λ e. IfSome e.1 (λ left. IsCleanLeft left
        → FailsAs WhyUnmade 0 (P.image name.now) left e.0)) }
    ensures spared { IfErr result (λ e. IfSome e.1 (λ left. IsCleanLeft left → Leaves IsKept
        (λ after. after ≡ P.image name.now) (P.image name.now) left)) }
{
    let files = match places.make(name) {
        Ok(files) => files,
        Err(fault) => return Err((fault, None)),
    };
    let seed = places.seed().map_err(|fault| (fault, None))?;
    match make_files(alloc, files, desk, seed) {
        Ok(memory) => Ok(memory),
        Err((fault, left)) => Err((fault, Some(left))),
    }
}

// A store whose log could be copied into its file. What was not committed is undone.
fn copied_store<D: Disk + Drop>(mut store: FileStore<D>) -> Option<FileStore<D>>
    ensures copied { IfSome result (λ copied. IsClean (view copied) → log_frames copied ≡ 0) }
    ensures kept { IfSome result (λ copied. (db : Trees) → recovers copied db
        → recovers store db) }
{
    store.rollback();
    match store.checkpoint() {
        Ok(()) => Some(store),
        Err(_) => None,
    }
}

/// Ends the use of a memory of this name. Where no call of it failed, and its log could be copied,
/// one file is left of it. What was not settled is not kept.
pub fn close_memory<D: Disk + Drop, P: MemoryPlaces<D>>(
    memory: StoreMemory<FileStore<D>>,
    name: &str,
    places: &mut P,
) {
    if let Some(store) = memory.close() {
        if let Some(copied) = copied_store(store) {
            places.close(name, copied.close());
        }
    }
}
