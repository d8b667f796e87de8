//! A desk's memory in a SQLite file: made once, by its name, and opened after that.
//!
//! A [`StoreMemory`] keeps the states of a desk's devices in two tables of a store. It has the
//! desk's row, and a row for each entry, at its place: what is noted is put, and what is settled is
//! committed and copied from the log into the file. SQLite's user version counts the commits: each
//! that settles, and two at each opening. [`read_memory`] gives the desk and the entries of a
//! store, or why it is refused. An answer stands there in words, and [`answer_of_text`] reads each
//! of them back, as [`next_answer`] reads one among the words of any line. A law says that a table
//! is that of one list of entries.
//!
//! [`make_memory`] makes the memory of a name, of which nothing is committed before it is settled,
//! and [`open_memory`] opens it; both hand back what is left of files that they refuse.
//! [`close_memory`] leaves one file. Where the files of a name are, [`MemoryPlaces`] say; those of
//! the file system are [`SystemPlaces`]. [`open_files`] and [`make_files`] take any two files as a
//! database and its log, and [`open_store`] and [`make_store`] leave the rows of the tables unread.
//! [`probe_log`] says whether a log was left by the file's last opening. The file has pages with
//! sums and two tables: where it holds anything else it is refused, with a cause, and holds what it
//! held.
#![tactic(auto)]

mod answer_reader;
mod counted_commit;
mod entry_row;
mod first_page;
mod law;
mod layer_fault;
mod left;
mod log_fit;
mod logged;
mod memory_file_fault;
mod memory_places;
mod memory_store;
mod memory_tables;
mod open_fault;
mod opening;
mod printed_answer;
mod row_entry;
mod store_fault;
mod store_memory;
mod system_places;
mod table_reading;

pub use answer_reader::{answer_of_text, next_answer};
pub use counted_commit::{commit_counted, count_opening};
pub use entry_row::{desk_row, row_of};
pub use law::table_is_of_one_list;
pub use left::Left;
pub use log_fit::{LogFit, probe_log};
pub use logged::Logged;
pub use memory_file_fault::MemoryFileFault;
pub use memory_places::MemoryPlaces;
pub use memory_store::{make_store, open_store};
pub use open_fault::OpenFault;
pub use opening::{close_memory, make_files, make_memory, open_files, open_memory};
pub use printed_answer::answer_text;
pub use row_entry::{desk_of, entry_of};
pub use store_memory::StoreMemory;
pub use system_places::SystemPlaces;
pub use table_reading::{read_desk, read_entries, read_memory};
