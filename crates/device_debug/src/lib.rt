//! A debugger's view of a play: GDB drives the device, forwards and backwards.
//!
//! A [`RunDebugger`] stands at a place of a run, which is a number of steps, and answers the
//! packets of GDB: what is shown are the registers, bytes and flags after these steps, and only the
//! place, the breakpoints, the watches and `until` change by what is asked.
#![tactic(auto)]

mod backwards;
mod debugger;
mod forwards;
mod grown_text;
mod interrupts;
mod look;
mod monitor;
mod run_debugger;
mod seek;
mod step_text;
mod waiting_lines;

pub use interrupts::Interrupts;
pub use run_debugger::RunDebugger;
