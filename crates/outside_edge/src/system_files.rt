ghost use Rattle.std.specs.Prelude.{None};

use crate::file_opener::FileOpener;
use crate::open_file::OpenFile;
use std::io::{Read, Seek, SeekFrom};
use std::rt::Files;
use std::{fs, io};

/// The files of the file system. It tells none: nothing is claimed of their bytes.
#[derive(Clone, Copy)]
pub struct SystemFiles<'a, R: Files> {
    runtime: &'a R,
}

impl<'a, R: Files> SystemFiles<'a, R> {
    pub fn new(runtime: &'a R) -> SystemFiles<'a, R> {
        SystemFiles { runtime }
    }
}

impl<R: Files> FileOpener for SystemFiles<'_, R> {
    type File = SystemFile<R::File>;

    ghost files = { λ _. None };

    fn open(&mut self, name: &str) -> io::Result<SystemFile<R::File>> {
        Ok(SystemFile::new(fs::open(self.runtime, name)?))
    }
}

/// A reader that can be sought as an open file. It tells no bytes.
#[derive(Drop)]
pub struct SystemFile<F: Read + Seek + Drop> {
    file: F,
}

impl<F: Read + Seek + Drop> SystemFile<F> {
    pub fn new(file: F) -> SystemFile<F> {
        SystemFile { file }
    }
}

impl<F: Read + Seek + Drop> OpenFile for SystemFile<F> {
    ghost told = { λ _. None };

    fn seek(&mut self, at: u64) -> io::Result<()> {
        self.file.seek(SeekFrom::Start(at))?;
        Ok(())
    }

    fn read(&mut self, piece: &mut [u8]) -> io::Result<usize> {
        self.file.read(piece)
    }
}
