//! Proof of execution: EXEC 1 after a call means that the executable region ran whole.
//!
//! There is no code here but laws, over the trace's definitions alone (APEX, USENIX Security 2020).
//! A caller that needs a law calls its function.
#![tactic(auto)]

mod example;
mod law;

pub use example::{interrupted_run_is_reported, quiet_run_is_reported};
pub use law::{
    each_exec_means_whole_run, exec_after_call_means_whole_run, exec_at_denial_means_whole_run,
    exec_in_report_means_whole_run,
};
