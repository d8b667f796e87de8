//! Isolation of the key: it acts through the words that the attestation releases, and through
//! nothing else.
//!
//! There is no code here but laws, over the trace's definitions alone (VRASED, USENIX Security
//! 2019). A caller that needs a law calls its function.
#![tactic(auto)]

mod example;
mod law;
mod secret;

pub use example::{attested_play_looks_keyless, blank_hides_key_word, two_keys_release_alike};
pub use law::{
    key_acts_through_released_words, keyless_starts_have_no_key, plays_look_keyless,
    second_key_changes_nothing,
};
pub use secret::only_key_and_stack_are_hidden;
