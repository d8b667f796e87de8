//! The adapters over files, writers and readers, which fail in every way.

mod buffered_sink;
mod fake_files;
mod file_shelf;
mod std_sink;
mod std_source;
mod told_file;

use std::io::{Error, ErrorKind};

/// The error of a number in 0..=133: what Linux calls by it, and for 0 the error that only readers
/// make.
pub fn error_of(number: i32) -> Error {
    match number {
        0 => Error::from(ErrorKind::UnexpectedEof),
        _ => Error::from_raw_os_error(number),
    }
}
