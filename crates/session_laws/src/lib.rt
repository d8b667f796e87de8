//! What holds of every session with a debugger, and of every conversation with a device that lives:
//! where a debugger stops, what it shows and which lines it tells, and that neither tells the key,
//! whatever bytes or lines come.
//!
//! There is no code here but laws, over the definitions of both alone. A caller that needs a law
//! calls its function.
#![tactic(auto)]

mod debugger_law;
mod law;
mod living_law;

pub use debugger_law::{second_key_gives_same_talk, talk_is_keyless};
pub use law::{
    each_session_may_stand, first_stop_is_first, interrupt_ends_a_way, last_stop_is_last,
    shown_is_of_the_play, step_is_taken_back, told_are_the_lines_between,
};
pub use living_law::{conversation_is_keyless, second_key_gives_same_conversation};
