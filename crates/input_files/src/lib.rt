//! What the programs have in common: the files that they read, and how they end.
//!
//! A [`Kind`] of file says what its bytes are read as and how many there are at most; [`File`] is
//! one of a kind by its name. [`Inputs`] are files that are read one after the other, up to the
//! first [`Refusal`]. Of what is read a row is the definition (`Row.antt`): whatever rows of a
//! program end with, a [`RowEnd`], the files that come first in one are read. A [`Status`] is the
//! answer of a run, with which [`run_program`] ends a [`Program`] on its command line.
#![tactic(auto)]

mod bad_file;
mod command_line;
mod file;
mod inputs;
mod kind;
mod own_texts;
mod program;
mod program_end;
mod refusal;
mod row_end;
mod status;
mod unfit;

pub use bad_file::BadFile;
pub use file::File;
pub use inputs::Inputs;
pub use kind::image::Image;
pub use kind::key::Key;
pub use kind::policy::{POLICY_LIMIT, Policy};
pub use kind::script::Script;
pub use kind::{Kind, TEXT_LIMIT};
pub use own_texts::OwnTexts;
pub use program::{Program, run_program};
pub use refusal::Refusal;
pub use row_end::RowEnd;
pub use status::Status;
pub use unfit::Unfit;
