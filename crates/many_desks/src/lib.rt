//! Many desks, each with a memory of its own, between which devices move: of each device one desk
//! has it at any time, and all of them are to it as one desk that was never stopped.
//!
//! There is no code here but laws, over the definitions of what desks note and of how devices move.
//! A caller that needs a law calls its function.
#![tactic(auto)]

mod law;

pub use law::{
    adopted_again_is_adopted, answer_is_repeated, desk_may_serve, desks_are_as_one,
    device_has_one_home, device_is_answered_as_one, key_is_under_one_name, lines_are_adopted_once,
    move_is_printed_again, report_is_accepted_once, sent_device_may_follow,
};
