//! Facts on the trace that its laws share: what holds between two steps, and where the accesses of
//! a call lie.
//!
//! There is no code here but laws, over the trace's definitions alone.
#![tactic(auto)]

mod law;

pub use law::{a1_and_k3_never_hold, rom_runs_in_calls_alone};
