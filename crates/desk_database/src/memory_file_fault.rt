use thiserror::Error;

/// Why a memory is not opened, or not made.
#[derive(Clone, Copy, Debug, PartialEq, Eq, Error)]
pub enum MemoryFileFault {
    /// No regular file with one name can be opened or made there, or its folder cannot be written.
    #[error("the memory cannot be opened or made there")]
    Place,
    /// There is no file of this name.
    #[error("there is no memory of this name")]
    Missing,
    /// Another process, or another handle of this one, has it open.
    #[error("the memory is in use")]
    InUse,
    /// The journal of another database lies beside it, which was not rolled back. Nothing is read.
    #[error("a journal of another database lies beside it")]
    HotJournal,
    /// The files hold something else, or a memory that is damaged.
    #[error("this is no memory of a desk, or it is damaged")]
    Foreign,
    /// There is no desk's memory yet: no database, no object in it, or no row in its tables.
    #[error("no memory was made there")]
    Unfounded,
    /// There is a desk's memory already.
    #[error("there is a memory already")]
    Founded,
    /// The log beside the database was left by another opening, of this file or of another.
    #[error("the log beside the memory is not its own")]
    OtherLog,
    /// The file system failed or had no room.
    #[error("the memory could not be read or written")]
    Disk,
    /// A limit of the format was met.
    #[error("the memory is full")]
    Full,
    /// There was no memory for it.
    #[error("out of memory")]
    OutOfMemory,
}
