//! A file in memory that its opener tells.

ghost use Rattle.std.specs.Prelude.{◌∷◌, [], Some};

use outside_edge::{FileOpener, OpenFile};
use std::io;
use std::io::{Error, ErrorKind};

/// An opener of one file, and that file open. It gives all that a piece has room for.
#[derive(Clone, Copy)]
pub struct ToldFile<'a> {
    pub name: &'a str,
    pub bytes: &'a [u8],
    pub place: u64,
}

impl<'a> FileOpener for ToldFile<'a> {
    type File = ToldFile<'a>;

    ghost files = { λ file. Some ((file.name.now, file.bytes.now) ∷ []) };

    fn open(&mut self, name: &str) -> io::Result<ToldFile<'a>> {
        if name == self.name {
            Ok(ToldFile { place: 0, ..*self })
        } else {
            Err(Error::from(ErrorKind::NotFound))
        }
    }
}

impl OpenFile for ToldFile<'_> {
    ghost told = { λ file. Some (record { bytes = file.bytes.now; place = file.place }) };

    fn seek(&mut self, at: u64) -> io::Result<()> {
        self.place = at;
        Ok(())
    }

    fn read(&mut self, piece: &mut [u8]) -> io::Result<usize> {
        let rest = &self.bytes[self.bytes.len().min(self.place as usize)..];
        let count = piece.len().min(rest.len());
        piece[..count].copy_from_slice(&rest[..count]);
        self.place += count as u64;
        Ok(count)
    }
}
