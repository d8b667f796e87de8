ghost use Rattle.std.specs.Prelude.{◌≡◌, ◌≢◌, ◌<◌, ◌≤◌, ◌↔◌, ℕ, List, Some, IsTrue, length, IfErr, IfOk, OnErr};
ghost use Rattle.std.specs.IoError.{error_kind};
ghost use Rattle.outside_edge.specs.File.{Copies, IsOpen};

use crate::open_file::OpenFile;
use arrayvec::ArrayString;
use std::io;
use std::io::ErrorKind;

// No longer name is opened: Linux takes 4,096 bytes with the zero behind them.
const MOST_NAME: usize = 4_095;

/// A file that was opened, with its name and the place of its next byte, where that is known.
#[derive(Drop)]
pub struct OpenedFile<F: OpenFile + Drop> {
    name: ArrayString<MOST_NAME>,
    file: F,
    place: Option<u64>,
}

impl<F: OpenFile + Drop> OpenedFile<F> {
    /// A file that was just opened by this name.
    pub fn new(name: &str, file: F) -> io::Result<OpenedFile<F>>
        ensures opened { IfOk result (λ opened. (opened.name.bytes ≡ name.now)
            × (opened.file ≡ file) × (opened.place ≡ Some 0)) }
        ensures refused { IfErr result (λ error. error_kind error ≡ ErrorKind.InvalidFilename) }
        ensures long { OnErr result (4095 < length name.now) }
    {
        match ArrayString::from(name) {
            Ok(name) => Ok(OpenedFile {
                name,
                file,
                place: Some(0),
            }),
            Err(_) => Err(io::Error::from(ErrorKind::InvalidFilename)),
        }
    }

    pub fn has_name(&self, name: &str) -> bool
        ensures { IsTrue result ↔ (self.now.name.bytes ≡ name.now) }
    {
        self.name.as_str() == name
    }

    /// Reads once from a place, and seeks only where that is another than the next byte's.
    pub fn read_at(&mut self, at: u64, piece: &mut [u8]) -> io::Result<usize>
        ensures within { IfOk result (λ n. n ≤ length piece.new) }
        ensures name { self.new.name ≡ self.old.name }
        ensures bytes { IfOk result (λ n. (bytes : List ℕ) → IsOpen F.told self.old bytes
            → Copies bytes at n piece.old piece.new) }
        ensures open { IfOk result (λ n. (bytes : List ℕ) → IsOpen F.told self.old bytes
            → IsOpen F.told self.new bytes) }
    {
        if self.place != Some(at) {
            self.file.seek(at)?;
        }
        let count = self.file.read(piece)?;
        self.place = at.checked_add(count as u64);
        Ok(count)
    }
}
