//! A device on its way through the places of a run.
//!
//! A [`Run`] is what is played: a device at power-on, and a script. A [`Walk`] stands at a place of
//! it, which is a number of steps, and goes on; it keeps what the steps since the last boundary
//! did, as a [`Stretch`]. A [`Track`] keeps copies of the device, from which a walk goes on again.
#![tactic(auto)]

mod copies;
mod memory_view;
mod passing;
mod run;
mod stretch;
mod track;
mod walk;

pub use copies::Copies;
pub use memory_view::{MOST_BYTES, is_shown, live_bytes, shown_bytes, shown_registers};
pub use passing::Passing;
pub use run::Run;
pub use stretch::Stretch;
pub use track::Track;
pub use walk::Walk;
