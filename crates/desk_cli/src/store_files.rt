ghost use Rattle.std.specs.Prelude.{◌≡◌, true, None};

use crate::memory_files::MemoryFiles;
use crate::refusals::Refusals;
use desk_database::{
    Left, MemoryFileFault, MemoryPlaces, StoreMemory, close_memory, make_memory, open_memory,
};
use sqlite_disk::Disk;
use sqlite_store::FileStore;
use std::alloc::Global;

/// A memory in two files.
pub type FileMemory<D> = StoreMemory<FileStore<D>>;

/// The memories in the files of places, of which one is opened or made, as an `M`.
#[derive(Drop)]
pub struct StoreFiles<P: Drop, D: Disk, M: Drop> {
    alloc: Global,
    places: P,
    // None was opened, made or refused yet.
    is_unopened: bool,
    // What was refused was to be made.
    is_making: bool,
    refusals: Refusals,
    // What is left of the files that were refused.
    left: Option<Left<D>>,
    // The name that was asked for, where there was memory for it.
    name: Option<String>,
    closed: Option<M>,
    ghost fresh: { is_unopened ≡ true → left ≡ None },
}

impl<P: Drop, D: Disk + Drop> StoreFiles<P, D, FileMemory<D>> {
    ghost use Rattle.std.specs.Prelude.{◌≡◌, None, IfErr, OnErr, OnOk, false, true};
    ghost use Rattle.outside_edge.specs.Calls.{Rose};
    ghost use Rattle.desk_database.specs.declared.memory_file_fault.MemoryFileFault.TheVariants.{InUse};

    pub fn new(alloc: Global, places: P) -> StoreFiles<P, D, FileMemory<D>>
        ensures { result.left ≡ None }
    {
        StoreFiles {
            alloc,
            places,
            is_unopened: true,
            is_making: false,
            refusals: Refusals::none(),
            left: None,
            name: None,
            closed: None,
        }
    }

    // Begins an open or a making, where none was begun.
    fn begin(&mut self, name: &str, is_making: bool) -> Result<(), MemoryFileFault>
        ensures first { OnOk result (self.old.is_unopened ≡ true) }
        ensures begun { self.new.is_unopened ≡ false }
        ensures making { OnOk result (self.new.is_making ≡ is_making) }
        ensures left { self.new.left ≡ self.old.left }
        ensures uncounted { OnOk result (self.new.refusals ≡ self.old.refusals) }
        ensures refused { IfErr result (λ fault. (fault ≡ InUse)
            × Rose self.old.refusals.locks self.new.refusals.locks) }
        ensures same { OnErr result (self.new.is_making ≡ self.old.is_making) }
    {
        if !self.is_unopened {
            self.refusals.count(MemoryFileFault::InUse);
            return Err(MemoryFileFault::InUse);
        }
        self.is_unopened = false;
        self.is_making = is_making;
        self.name = String::from_str(self.alloc, name).ok();
        Ok(())
    }
}

impl<D: Disk + Drop, P: MemoryPlaces<D> + Drop> StoreFiles<P, D, FileMemory<D>> {
    /// Ends the use of the memory that was closed. Where no call of it has failed, one file is left
    /// of it.
    pub fn end(self) {
        let StoreFiles {
            alloc: _,
            mut places,
            is_unopened: _,
            is_making: _,
            refusals: _,
            left: _left,
            name,
            closed,
        } = self;
        if let Some(memory) = closed {
            if let Some(name) = name {
                close_memory(memory, name.as_str(), &mut places);
            }
        }
    }
}

impl<D: Disk + Drop, P: MemoryPlaces<D> + Drop> MemoryFiles<FileMemory<D>>
    for StoreFiles<P, D, FileMemory<D>> {
    ghost use Rattle.desk_cli.specs.StoreFiles.{told_over};

    ghost told = { told_over P.image (λ files. files.is_unopened ≡ true)
        (λ files. files.is_making) (λ files. files.refusals) (λ files. files.left)
        (λ files. files.closed) };

    fn open(&mut self, name: &str) -> Result<FileMemory<D>, MemoryFileFault> {
        self.begin(name, false)?;
        match open_memory(self.alloc, name, &mut self.places) {
            Ok(memory) => Ok(memory),
            Err((fault, left)) => {
                self.refusals.count(fault);
                self.left = left;
                Err(fault)
            }
        }
    }

    fn make(&mut self, name: &str, desk: &[u8]) -> Result<FileMemory<D>, MemoryFileFault> {
        self.begin(name, true)?;
        match make_memory(self.alloc, name, desk, &mut self.places) {
            Ok(memory) => Ok(memory),
            Err((fault, left)) => {
                self.refusals.count(fault);
                self.left = left;
                Err(fault)
            }
        }
    }

    fn close(&mut self, memory: FileMemory<D>) {
        self.closed = Some(memory);
    }
}
