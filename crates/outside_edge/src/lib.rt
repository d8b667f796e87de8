//! The outside as the program sees it: a shelf of files that are read, a sink that takes bytes, and
//! a source that gives bytes.
//!
//! They are traits that count their faults, so that "it failed" is answered only where a count
//! rose. There are shelves, sinks and sources in memory, some of which fail on purpose, and thin
//! adapters over the system's files, writers and readers, about whose bytes nothing is claimed.
//! [`read_whole`] gives a whole file or a counted fault, and [`put_all`] puts all bytes or a prefix
//! of them and a counted fault. [`BufferedSink`] is a sink whose bytes go to another one in pieces,
//! and [`FileShelf`] a shelf of the files that an opener opens.
#![tactic(auto)]

mod buffered_sink;
mod byte_queue;
mod failing_calls;
mod file_copy;
mod file_fault;
mod file_opener;
mod file_shelf;
mod mem_shelf;
mod mem_sink;
mod mem_source;
mod never_fail_shelf;
mod never_fail_sink;
mod never_fail_source;
mod open_file;
mod opened_file;
mod shelf;
mod sink;
mod source;
mod std_sink;
mod std_source;
mod system_files;
mod whole_file;

pub use buffered_sink::BufferedSink;
pub use file_fault::FileFault;
pub use file_opener::FileOpener;
pub use file_shelf::FileShelf;
pub use mem_shelf::MemShelf;
pub use mem_sink::MemSink;
pub use mem_source::MemSource;
pub use never_fail_shelf::NeverFailShelf;
pub use never_fail_sink::NeverFailSink;
pub use never_fail_source::NeverFailSource;
pub use open_file::OpenFile;
pub use shelf::{Shelf, ShelfError};
pub use sink::{Failed, Sink, put_all};
pub use source::Source;
pub use std_sink::StdSink;
pub use std_source::StdSource;
pub use system_files::{SystemFile, SystemFiles};
pub use whole_file::read_whole;
