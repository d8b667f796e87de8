use crate::bad_file::BadFile;

/// Why the files of a command have no values. Nothing is put after it.
#[derive(Clone, Copy, Debug, PartialEq, Eq)]
pub enum Refusal {
    /// A file is not there.
    Absent,
    /// A file could not be read.
    ReadFault,
    /// There was no memory.
    Memory,
    /// A file has this fault.
    Bad(BadFile),
}
