//! The verifier's desk: it makes requests for many devices, and judges their reports.
//!
//! A desk has the keys of its devices by their names, the image that they shall run, and a policy.
//! [`read_keys`] reads the devices of a file of keys, and [`first_taken`] finds one whose key
//! stands under another name in a memory, and [`first_gone`] one that has moved to another desk. A
//! line asks for a request or gives a report, and its reply is found from the lines of the same
//! device alone: [`Desk::answer`] gives it, and [`serve`] answers each line of a source as soon as
//! it is whole. The laws say that a device is served as if it were alone, that a counter is
//! requested and accepted at most once, that the same number gets the same answer again, and that
//! what is accepted answers the outstanding request.
//!
//! What a desk knows of its devices it notes in a memory, and no reply is put before the memory
//! keeps it. A desk that is started anew with what its memory has goes on as if it had not been
//! stopped.
#![tactic(auto)]

mod answer_fault;
mod answer_text;
mod challenge;
mod desk;
mod desk_line;
mod desk_responder;
mod device_answer;
mod device_key;
mod gone;
mod key_list;
mod key_owner;
mod law;
mod noting;
mod places;
mod reply;
mod session;
mod telling;
mod withheld;

pub use answer_fault::AnswerFault;
pub use desk::Desk;
pub use device_key::check_name;
pub use gone::first_gone;
pub use key_list::{KeyList, read_keys};
pub use key_owner::first_taken;
pub use law::{
    accept_answers_request, answer_is_repeated, desk_goes_on, device_is_served_alone,
    key_is_under_one_name, keys_are_kept, memory_has_all_runs, memory_has_states,
    messages_stand_apart, report_is_accepted_once, state_is_kept_at_its_place, told_key_is_bound,
};
pub use reply::Reply;
pub use session::serve;
