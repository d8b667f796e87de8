//! What serves standard input: GDB drives a device by packets, or lines say what happens to one.
//!
//! [`run`](run::run) is the whole program over any shelf of files, any source and any byte sink.
//! Its contract says of the bytes put that they are the conversation of the bytes that the source
//! gave, over the run or the device of the files, and of each other answer what its cause is.
//! `debug_main` runs it over the file system, standard input and standard output.
#![tactic(auto)]

mod answer_status;
mod debug;
mod live;
pub mod run;
mod session_end;
