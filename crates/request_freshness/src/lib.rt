//! A request is attested once: the kept counter never falls, and the counters of the requests that
//! are attested grow.
//!
//! There is no code here but laws, over the trace's definitions alone. A caller that needs a law
//! calls its function.
#![tactic(auto)]

mod example;
mod law;

pub use example::{high_word_comes_first, replay_is_denied};
pub use law::{
    attested_counters_grow, each_report_tells_new_counter, kept_counter_moves_for_right_requests,
    kept_counter_never_falls, request_is_attested_once,
};
