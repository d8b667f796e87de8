//! Files in memory that can be opened once each, and fail as they are told.

ghost use Rattle.std.specs.Prelude.{None};

use crate::outside::error_of;
use outside_edge::{FileOpener, SystemFile};
use std::io;
use std::io::{Error, ErrorKind, Read, Seek, SeekFrom};

/// What an opener gives to one that asks for this name: a file, or the error of a number.
#[derive(Clone, Copy)]
pub struct Opening<'a> {
    pub name: &'a str,
    pub file: Result<FakeFile<'a>, i32>,
}

/// A file that gives at most `most` bytes in one call.
#[derive(Clone, Copy)]
pub struct FakeFile<'a> {
    pub bytes: &'a [u8],
    pub at: usize,
    pub most: usize,
    /// The number of the error in place of its end.
    pub break_off: Option<i32>,
    /// The number of the error where it is sought.
    pub seek_fault: Option<i32>,
}

/// The openings are given in their order; a name that is not that of the next one is not found.
#[derive(Clone, Copy)]
pub struct FakeFiles<'a> {
    pub openings: &'a [Opening<'a>],
}

impl<'a> FakeFile<'a> {
    /// A file that can be sought and ends without a fault.
    pub fn new(bytes: &'a [u8], most: usize) -> FakeFile<'a> {
        FakeFile {
            bytes,
            at: 0,
            most,
            break_off: None,
            seek_fault: None,
        }
    }

    /// A file that has the error of this number behind its bytes.
    pub fn torn(bytes: &'a [u8], number: i32) -> FakeFile<'a> {
        FakeFile {
            bytes,
            at: 0,
            most: 4_096,
            break_off: Some(number),
            seek_fault: None,
        }
    }

    /// A pipe, which gives the error of this number where it is sought.
    pub fn pipe(bytes: &'a [u8], number: i32) -> FakeFile<'a> {
        FakeFile {
            bytes,
            at: 0,
            most: 1_000,
            break_off: None,
            seek_fault: Some(number),
        }
    }
}

impl<'a> FileOpener for FakeFiles<'a> {
    type File = SystemFile<FakeFile<'a>>;

    ghost files = { λ _. None };

    fn open(&mut self, name: &str) -> io::Result<SystemFile<FakeFile<'a>>> {
        let openings = self.openings;
        match openings {
            [first, rest @ ..] if first.name == name => {
                self.openings = rest;
                match first.file {
                    Ok(file) => Ok(SystemFile::new(file)),
                    Err(number) => Err(error_of(number)),
                }
            }
            _ => Err(Error::from(ErrorKind::NotFound)),
        }
    }
}

impl Read for FakeFile<'_> {
    fn read(&mut self, piece: &mut [u8]) -> io::Result<usize> {
        let rest = self.bytes.get(self.at..).unwrap_or(b"");
        let count = piece.len().min(self.most).min(rest.len());
        piece[..count].copy_from_slice(&rest[..count]);
        self.at = self.at.saturating_add(count);
        match self.break_off {
            Some(number) if rest.is_empty() => Err(error_of(number)),
            _ => Ok(count),
        }
    }
}

impl Seek for FakeFile<'_> {
    fn seek(&mut self, to: SeekFrom) -> io::Result<u64> {
        match (self.seek_fault, to) {
            (Some(number), _) => Err(error_of(number)),
            (None, SeekFrom::Start(at)) => {
                self.at = at as usize;
                Ok(at)
            }
            _ => Err(Error::from(ErrorKind::InvalidInput)),
        }
    }
}
