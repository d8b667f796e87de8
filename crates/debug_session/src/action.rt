ghost use Rattle.std.specs.{Prelude.{◌≡◌, ◌<◌, ◌≤◌, ℕ, length, slice_index, true, false, option_map, IfSome}, List.before_first};
ghost use Rattle.debug_session.specs.{Action.{action_of, rest_behind, ends_action, first_action, is_signal, range_command, going_with_signal, signalled_action}, Number.two_numbers};

use crate::command::{Command, Going, Way};
use crate::number::{number_of, two_numbers};

/// What stands behind this beginning, where a body begins so.
pub fn rest_behind<'a>(beginning: &[u8], body: &'a [u8]) -> Option<&'a [u8]>
    ensures behind { option_map (λ rest. rest.now) result ≡ rest_behind beginning.now body.now }
    ensures len { IfSome result (λ rest. length rest.now ≤ length body.now) }
{
    body.strip_prefix(beginning)
}

/// The first of some actions counts.
pub fn read_first_action(text: &[u8]) -> Command
    ensures { result ≡ first_action text.now }
{
    let action = one_action(text);
    match rest_behind(b"r", action) {
        Some(range) => read_range(range),
        None => read_action(action),
    }
}

fn one_action(text: &[u8]) -> &[u8]
    ensures { result.now ≡ before_first ends_action text.now }
{
    let end = action_len(text);
    &text[..end]
}

// The number of bytes before the end of an action, or of all where there is none.
fn action_len(text: &[u8]) -> usize
    ensures within { result ≤ length text.now }
    ensures before { (k : ℕ) → k < result → ends_action (slice_index text.now k) ≡ false }
    ensures end { result < length text.now → ends_action (slice_index text.now result) ≡ true }
{
    text.iter()
        .position(|byte| ends_action(*byte))
        .unwrap_or(text.len())
}

fn ends_action(byte: u8) -> bool
    ensures { result ≡ ends_action byte }
{
    byte == b':' || byte == b';'
}

fn read_range(range: &[u8]) -> Command
    ensures { result ≡ range_command (two_numbers range.now) }
{
    match two_numbers(range) {
        Some((first, end)) => Command::Go(Way::Ahead, Going::Range(first, end)),
        None => Command::Refused,
    }
}

/// An action without an address; a signal is passed over.
pub fn read_action(action: &[u8]) -> Command
    ensures { result ≡ action_of action.now }
{
    if action == b"c".as_slice() {
        Command::Go(Way::Ahead, Going::On)
    } else if action == b"s".as_slice() {
        Command::Go(Way::Ahead, Going::Step)
    } else {
        signalled_action(action)
    }
}

fn signalled_action(action: &[u8]) -> Command
    ensures { result ≡ signalled_action action.now }
{
    if let Some(signal) = rest_behind(b"C", action) {
        going_with_signal(Going::On, signal)
    } else if let Some(signal) = rest_behind(b"S", action) {
        going_with_signal(Going::Step, signal)
    } else {
        Command::Refused
    }
}

fn going_with_signal(going: Going, signal: &[u8]) -> Command
    ensures { result ≡ going_with_signal going signal.now }
{
    if is_signal(signal) {
        Command::Go(Way::Ahead, going)
    } else {
        Command::Refused
    }
}

fn is_signal(digits: &[u8]) -> bool
    ensures { result ≡ is_signal digits.now }
{
    digits.len() == 2 && number_of(digits).is_some()
}
