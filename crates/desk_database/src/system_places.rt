use crate::layer_fault::path_fault;
use crate::memory_file_fault::MemoryFileFault;
use crate::memory_places::MemoryPlaces;
use sqlite_disk::{Files, Start};
use sqlite_std_file::FileFrom;
use std::fs;
use std::hash::{BuildHasher, RandomState};
use std::io::{self, ErrorKind};

/// The files of the file system, of which those of one path are opened. `S` stands for what they
/// hold, whatever the path.
#[derive(Drop)]
pub struct SystemPlaces<'a, S: Start> {
    runtime: &'a HostRuntime,
    // None once a path was opened or refused.
    start: Option<S>,
}

impl<'a, S: Start> SystemPlaces<'a, S> {
    pub fn new(runtime: &'a HostRuntime, start: S) -> SystemPlaces<'a, S> {
        SystemPlaces {
            runtime,
            start: Some(start),
        }
    }

    fn remove_log(&self, name: &str) -> io::Result<()> {
        let real = fs::canonicalize(self.runtime, name)?;
        let log = format!(in self.runtime.alloc(); "{}-wal", real.as_str())?;
        fs::remove_file(self.runtime, log.as_str())
    }
}

impl<S: Start> MemoryPlaces<FileFrom<S>> for SystemPlaces<'_, S> {
    ghost use Rattle.sqlite_wal.specs.Files.{image_at};

    ghost image = { λ name. image_at S.Start };

    fn open(&mut self, name: &str) -> Result<Files<FileFrom<S>>, MemoryFileFault> {
        match fs::metadata(self.runtime, name) {
            Err(error) if error.kind() == ErrorKind::NotFound => Err(MemoryFileFault::Missing),
            _ => self.make(name),
        }
    }

    fn make(&mut self, name: &str) -> Result<Files<FileFrom<S>>, MemoryFileFault> {
        let Some(start) = self.start.take() else {
            return Err(MemoryFileFault::InUse);
        };
        match sqlite_std_file::open(self.runtime, name, start) {
            Ok(files) => Ok(files),
            Err(error) => Err(path_fault(error)),
        }
    }

    fn close(&mut self, name: &str, files: Files<FileFrom<S>>) {
        let Files { log, db } = files;
        drop(log);
        let _removed = self.remove_log(name);
        // The lock on the database goes last.
        drop(db);
    }

    fn seed(&mut self) -> Result<u64, MemoryFileFault> {
        let state = RandomState::new(self.runtime).map_err(|_| MemoryFileFault::Place)?;
        Ok(state.hash_one(&0u8))
    }
}
