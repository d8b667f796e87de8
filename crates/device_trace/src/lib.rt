//! The trace of the device: what it does in a play, and the text that tells it.
//!
//! There is no code here but laws. A play, a list of events for each step, gives one bus record for
//! each step by plain definitions: what happened to each part so far, what the next step is about
//! to do, the first rule that it breaks, and its record. `device_core` is proved against this
//! trace, and the program against its text. The rules are those of VRASED (USENIX Security 2019)
//! and the flag is that of APEX (USENIX Security 2020).
#![tactic(auto)]

mod example;
mod law;

pub use example::{
    attested_plays_print_their_texts, dma_plays_print_their_texts, flag_plays_print_their_texts,
    programs_print_their_texts, refused_plays_print_their_texts, steps_leave_their_records,
};
pub use law::accesses_are_formed;
