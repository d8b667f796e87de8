//! Trusted interrupts: AUX 1 in a report means that the executable region ran whole, and that each
//! interrupt in its midst had its handler in the region (in the manner of ASAP, DAC 2022).
//!
//! There is no code here but laws, over the trace's definitions alone. A caller that needs a law
//! calls its function.
#![tactic(auto)]

mod example;
mod law;

pub use example::flags_are_computed;
pub use law::{
    aux_after_call_means_trusted_run, aux_at_denial_means_trusted_run,
    aux_in_report_means_trusted_run, aux_outside_means_trusted_run, calls_leave_aux,
    each_aux_means_trusted_run,
};
