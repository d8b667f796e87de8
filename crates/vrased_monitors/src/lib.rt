//! The hardware monitors of VRASED (USENIX Security 2019).
//!
//! [`KeyMonitor`] guards the device key and the exclusive stack. [`AtomMonitor`] guards the
//! atomicity of the attestation ROM: a call begins at its entry, ends at its exit, and is not
//! interrupted. Each is shown what a step is about to do, whoever its bus masters are, the second
//! also the `pc` of the last record, and names the first of its rules that the step breaks. The
//! device then refuses the step and resets.
#![tactic(auto)]

mod atom_monitor;
mod key_monitor;

pub use atom_monitor::AtomMonitor;
pub use key_monitor::KeyMonitor;
