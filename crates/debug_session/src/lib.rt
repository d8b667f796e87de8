//! What a debugger of a play is asked for, and what it says.
//!
//! A [`StopList`] has the breakpoints, watches, and the number of steps that were asked for. What a
//! watch sees of a step is a [`SeenAccesses`]. A [`Stop`] is why a device stands where it stands,
//! with the reply that says so. A [`Command`] is the body of a packet, a [`Request`] that of its
//! user.
//!
//! What is said of a session is definitions alone: the places of a run, why it stops at one, where
//! it goes to, and what it shows there. A place is a number of steps, and all that is said of it
//! are functions of the device's logs after these steps; where a debugger stops is found by a scan
//! over places.
#![tactic(auto)]

mod action;
mod command;
mod number;
mod request;
mod seen_accesses;
mod stop;
mod stop_change;
mod stop_list;
mod watch;

pub use command::{Command, Going, Way, read_command};
pub use request::{MOST_STEPS, Request};
pub use seen_accesses::SeenAccesses;
pub use stop::Stop;
pub use stop_change::StopChange;
pub use stop_list::StopList;
pub use watch::{Hit, Watch, WatchKind};
