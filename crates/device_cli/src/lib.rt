//! The commands of the device: firmware is played a bus step at a time, and what the device sends,
//! why it resets and what it attests is printed; its reports are judged as they come, its memory is
//! dumped, its loads are played; sources are assembled, images listed, and reports verified.
//!
//! [`run`](run::run) is the whole program over any shelf of files and any byte sink. Its contract
//! says of the bytes put that they are the text of the command's row, and of each other answer what
//! its cause is. `device_main` runs it over the file system and standard output. The verifier's
//! desk is a program of its own, `desk_cli`, and so is the debugger, `debug_cli`.
#![tactic(auto)]

mod command;
mod command_end;
mod ending;
mod example;
mod kind;
mod law;
mod load;
mod power;
mod put_status;
pub mod run;
mod task;
mod verdict;

pub use load::line_tally::{LineCounts, LineTally};
pub use load::load_script::draw_script;
pub use verdict::judging::Judging;
