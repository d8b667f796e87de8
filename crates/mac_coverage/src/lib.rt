//! The MAC covers its region: it is of metadata, code and output as they stand in memory throughout
//! the call that writes it.
//!
//! There is no code here but laws, over the trace's definitions alone (VRASED, USENIX Security
//! 2019). A caller that needs a law calls its function.
#![tactic(auto)]

mod example;
mod law;

pub use example::{
    broken_call_writes_less, denied_call_writes_decision, exec_falls_in_first_step,
    finished_call_writes_mac,
};
pub use law::{mac_covers_each_report, mac_covers_region_throughout_call, reported_mac_is_tag};
