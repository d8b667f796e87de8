//! A play before a watcher: one loop over the steps of a script on a device.
//!
//! A [`Watcher`] says what is put before the first step, of each step that it is shown, and after
//! the last one, and keeps a tally. [`play_before`] plays a script before it, over any digest and
//! second flag; [`play_to_shown`] is one turn of it. What is put of a play is said by the watcher's
//! account of it, and that the play obeys the laws of the device is said here once for all
//! watchers.
#![tactic(auto)]

mod driver;
mod dump_watcher;
mod law;
mod line_watcher;
mod put_fault;
mod trace_watcher;
mod traced_line;
mod watcher;
mod wave_sample;
mod wave_watcher;

pub use driver::{play_before, play_to_shown};
pub use dump_watcher::DumpWatcher;
pub use law::reports_tell_of_their_moments;
pub use line_watcher::{LineWatcher, print_end_of, print_last_step};
pub use put_fault::PutFault;
pub use trace_watcher::TraceWatcher;
pub use traced_line::last_trace_line;
pub use watcher::Watcher;
pub use wave_watcher::WaveWatcher;
