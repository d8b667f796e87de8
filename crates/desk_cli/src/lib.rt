//! The verifier's desk: it makes requests for many devices and judges their reports, and keeps what
//! it must never forget in a memory.
//!
//! [`run`](run::run) is the whole program over any shelf of files, any memories, any source of
//! lines and any byte sink. Its contract says of the bytes put that they are the replies of a desk
//! to the lines of the source, and of the memory that no crash takes back what they say; and of
//! each other answer what its cause is. `desk_main` runs it over the file system, of which
//! [`StoreFiles`] are the memories, standard input and standard output.
#![tactic(auto)]

mod adopting;
mod answer_status;
mod desk;
mod entry_fault;
mod founding;
mod kind;
mod law;
mod line_form;
mod memory_files;
mod moving;
mod note_all;
mod numbered_entries;
mod refusals;
pub mod run;
mod state_entry;
mod state_line;
mod state_list;
mod states;
mod store_files;

pub use law::{states_read_back, version_one_reads_back};
pub use memory_files::MemoryFiles;
pub use state_list::{StateList, read_states};
pub use store_files::{FileMemory, StoreFiles};
