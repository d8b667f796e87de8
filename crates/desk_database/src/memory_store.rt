ghost use Rattle.std.specs.Prelude.{◌≡◌, ◌≤◌, ◌↔◌, true, IsTrue, IfOk, IfErr, OnOk};
ghost use Rattle.sqlite_wal.specs.{PageSize.bytes_of, Files.{outcomes, IsHuge}, Reads.{AreClean, OnlyReads}};
ghost use Rattle.sqlite_pool.specs.{Stored.used_size, Opening.IsBlankFile};
ghost use Rattle.sqlite_store.specs.{FileStore.view, Unopened.{state_of, files_of, wanted_by, image, AreUsable}};
ghost use Rattle.desk_database.specs.{Begun.{GivesStore, IsStoreOver, LacksTables, Refuses}, Held.{HoldsNothing, IsKept, IsSpared, MayBeMemory}, Log.{CanReplay, FitsLog, FitsMaking, IsLogFit, stored_page}, Opening.{FailsToOpen, IsRefused, OnlyLooks, WhyUnmade, WhyUnopened, WhyUnread, faults_of, image_of}, MemoryTables.{page_size, memory_schema}};

use crate::layer_fault::{probe_fault, store_fault};
use crate::left::Left;
use crate::log_fit::{LogFit, probe_log};
use crate::memory_file_fault::MemoryFileFault;
use crate::memory_tables::{desk_table, device_table};
use sqlite_disk::{Disk, Files};
use sqlite_pager::{Options, Pager};
use sqlite_pool::probe_blank;
use sqlite_store::{FileStore, OpenError, Unopened};
use sqlite_wal::PageSize;
use std::alloc::{AllocFailed, Global};

/// The bytes of a page with its sum.
const STORED_PAGE: usize = 4096;

// What two files are, before they are recovered.
#[derive(Clone, Copy)]
struct Found {
    log: LogFit,
    is_blank: bool,
}

// Nothing is written.
fn probe<D: Disk>(
    alloc: Global,
    files: &mut Files<D>,
    size: PageSize,
) -> Result<Found, MemoryFileFault>
    requires log { IsTrue (D.Disk.is_usable files.old.log) }
    requires db { IsTrue (D.Disk.is_usable files.old.db) }
    requires size { bytes_of size ≡ stored_page }
    ensures fit { IfOk result (λ found. AreClean D.Disk files.new.log files.new.db
        → IsLogFit (image_of D.Disk files.old) found.log) }
    ensures replays { OnOk result (AreClean D.Disk files.new.log files.new.db
        → CanReplay (D.Disk.seen files.old.log)) }
    ensures blank { IfOk result (λ found. AreClean D.Disk files.new.log files.new.db
        → (IsTrue found.is_blank ↔ IsBlankFile page_size (image_of D.Disk files.old))) }
    ensures cause { IfErr result (λ fault. AreClean D.Disk files.new.log files.new.db
        → FailsToOpen (faults_of D.Disk files.old) (faults_of D.Disk files.new)
        (IsHuge stored_page (image_of D.Disk files.new))
        (WhyUnread (image_of D.Disk files.old)) fault) }
    ensures same { OnlyLooks D.Disk files.old files.new }
{
    let log = match probe_log(alloc, files, size) {
        Ok(log) => log,
        Err(error) => return Err(probe_fault(error)),
    };
    match probe_blank(alloc, files, size, true) {
        Ok(is_blank) => Ok(Found { log, is_blank }),
        Err(error) => Err(probe_fault(error)),
    }
}

fn unopened<D: Disk>(
    alloc: Global,
    files: Files<D>,
    size: PageSize,
    seed: u64,
) -> Result<Unopened<D>, Files<D>>
    requires { bytes_of size ≡ stored_page }
    ensures back { IfErr result (λ left. (left.log ≡ files.log) × (left.db ≡ files.db)) }
    ensures files { IfOk result (λ it. files_of it ≡ (files.log, files.db)) }
    ensures size { IfOk result (λ it. (state_of it).page_size ≡ page_size) }
    ensures schema { IfOk result (λ it. wanted_by it ≡ memory_schema) }
{
    let pager = Pager::new(alloc, files, size, Options::new(seed)).map_err(|failed| failed.value)?;
    match Unopened::with_sums(alloc, pager, &[device_table(), desk_table()], true) {
        Ok(unopened) => Ok(unopened),
        Err(AllocFailed { value }) => Err(value.close()),
    }
}

// Opens the tables in files, or hands them back where no object is in them.
fn open_tables<D: Disk>(
    mut files: Unopened<D>,
) -> Result<FileStore<D>, (Option<OpenError>, Unopened<D>)>
    requires usable { AreUsable files }
    requires size { (state_of files).page_size ≡ page_size }
    requires schema { wanted_by files ≡ memory_schema }
    requires something { IsTrue (state_of files).is_clean → ¬ IsBlankFile page_size (image files) }
    ensures given { IfOk result (GivesStore files) }
    ensures lacks { IfErr result (λ e. LacksTables files e.0 e.1) }
{
    match files.read_catalog() {
        Ok(rows) => {
            if rows.is_empty() {
                Err((None, files))
            } else {
                match files.open_numbered() {
                    Ok(store) => Ok(store),
                    Err((error, left)) => Err((Some(error), left)),
                }
            }
        }
        Err(error) => Err((Some(error), files)),
    }
}

// Makes the tables in files that have no object.
fn create_tables<D: Disk>(files: Unopened<D>) -> Result<FileStore<D>, (OpenError, Unopened<D>)>
    requires usable { AreUsable files }
    requires size { IsTrue (state_of files).is_clean → (state_of files).page_size ≡ page_size }
    requires schema { wanted_by files ≡ memory_schema }
    ensures given { IfOk result (GivesStore files) }
    ensures refused { IfErr result (λ e.
        Refuses IsKept (HoldsNothing (image files)) files e.0 e.1) }
{
    match files.create() {
        Ok(store) => Ok(store),
        Err((error, left)) => Err((error, left)),
    }
}

// Opens the tables in files, or makes them where no object is in them.
fn make_tables<D: Disk>(
    files: Unopened<D>,
    is_blank: bool,
) -> Result<FileStore<D>, (OpenError, Unopened<D>)>
    requires usable { AreUsable files }
    requires size { (state_of files).page_size ≡ page_size }
    requires schema { wanted_by files ≡ memory_schema }
    requires blank { IsTrue (state_of files).is_clean
        → (IsTrue is_blank ↔ IsBlankFile page_size (image files)) }
    ensures given { IfOk result (GivesStore files) }
    ensures refused { IfErr result (λ e.
        Refuses IsKept (MayBeMemory (image files)) files e.0 e.1) }
{
    if is_blank {
        return create_tables(files);
    }
    match open_tables(files) {
        Ok(store) => Ok(store),
        Err((None, begun)) => create_tables(begun),
        Err((Some(error), left)) => Err((error, left)),
    }
}

/// Opens the tables of a memory in these files, the rows of which are left unread.
pub fn open_store<D: Disk>(
    alloc: Global,
    mut files: Files<D>,
    seed: u64,
) -> Result<FileStore<D>, (MemoryFileFault, Left<D>)>
    requires log { IsTrue (D.Disk.is_usable files.log) }
    requires db { IsTrue (D.Disk.is_usable files.db) }
    ensures given { IfOk result (IsStoreOver files) }
    ensures fits { IfOk result (λ store. IsTrue (view store).is_clean
        → FitsLog (image_of D.Disk files)) }
    ensures refused { IfErr result (λ e. IsRefused WhyUnopened IsSpared files e.0 e.1) }
{
    let size = PageSize::new(STORED_PAGE).unwrap();
    let found = match probe(alloc, &mut files, size) {
        Ok(found) => found,
        Err(fault) => return Err((fault, Left::Files(files))),
    };
    if found.log != LogFit::Fits {
        return Err((MemoryFileFault::OtherLog, Left::Files(files)));
    }
    if found.is_blank {
        return Err((MemoryFileFault::Unfounded, Left::Files(files)));
    }
    let fresh = match unopened(alloc, files, size, seed) {
        Ok(fresh) => fresh,
        Err(left) => return Err((MemoryFileFault::OutOfMemory, Left::Files(left))),
    };
    match open_tables(fresh) {
        Ok(store) => Ok(store),
        Err((None, left)) => Err((MemoryFileFault::Unfounded, Left::Unopened(left))),
        Err((Some(error), left)) => Err((store_fault(error), Left::Unopened(left))),
    }
}

/// Opens the tables of a memory in these files, or makes them where there are none.
pub fn make_store<D: Disk>(
    alloc: Global,
    mut files: Files<D>,
    seed: u64,
) -> Result<FileStore<D>, (MemoryFileFault, Left<D>)>
    requires log { IsTrue (D.Disk.is_usable files.log) }
    requires db { IsTrue (D.Disk.is_usable files.db) }
    ensures given { IfOk result (IsStoreOver files) }
    ensures fits { IfOk result (λ store. IsTrue (view store).is_clean
        → FitsMaking (image_of D.Disk files)) }
    ensures refused { IfErr result (λ e. IsRefused WhyUnmade IsKept files e.0 e.1) }
{
    let size = PageSize::new(STORED_PAGE).unwrap();
    let found = match probe(alloc, &mut files, size) {
        Ok(found) => found,
        Err(fault) => return Err((fault, Left::Files(files))),
    };
    if found.log == LogFit::Other {
        return Err((MemoryFileFault::OtherLog, Left::Files(files)));
    }
    let fresh = match unopened(alloc, files, size, seed) {
        Ok(fresh) => fresh,
        Err(left) => return Err((MemoryFileFault::OutOfMemory, Left::Files(left))),
    };
    match make_tables(fresh, found.is_blank) {
        Ok(store) => Ok(store),
        Err((error, left)) => Err((store_fault(error), Left::Unopened(left))),
    }
}
