ghost use Rattle.std.specs.Prelude.{◌≡◌, option_map};
ghost use Rattle.desk_memory.specs.Entry.{last_in, owner_in};
ghost use Rattle.desk_cli.specs.StateFile.{entry_fault, goes_behind, goes_on, goes_on_from, is_in_range, is_owner, last_number};

use desk_memory::{Answer, DeviceState, Entry, last_of, owner_of, place_for};
use text_scan::FaultKind;

/// Whether an entry may stand behind these, or what is wrong with it.
pub fn check_entry(entries: &[Entry], entry: &Entry) -> Result<(), FaultKind>
    ensures { result ≡ entry_fault entries.now entry.now }
{
    if !is_in_range(entry.state()) {
        return Err(FaultKind::Range);
    }
    if !goes_behind(entries, entry) {
        return Err(FaultKind::Twice);
    }
    if !goes_on(last_of(entries, entry.name()), entry) {
        return Err(FaultKind::Order);
    }
    Ok(())
}

// Whether the request of the last answer was made, and more can be made.
fn is_in_range(state: DeviceState) -> bool
    ensures { result ≡ is_in_range state }
{
    let is_made = match state.last {
        Some((_, Answer::Requested(request))) => request <= state.count,
        _ => true,
    };
    is_made && state.count != u32::MAX
}

// Whether an entry goes behind these, and its key stands under no other name.
fn goes_behind(entries: &[Entry], entry: &Entry) -> bool
    ensures { result ≡ goes_behind entries.now entry.now }
{
    place_for(entries, entry) == entries.len() && is_owner(entries, entry)
}

// Whether the key of an entry stands under its name or under none.
fn is_owner(entries: &[Entry], entry: &Entry) -> bool
    ensures { result ≡ is_owner entry.now.name (owner_in entries.now entry.now.mark) }
{
    match owner_of(entries, entry.mark()) {
        None => true,
        Some(owner) => owner == entry.name(),
    }
}

// Whether an entry goes on from its device's last.
fn goes_on(last: Option<&Entry>, entry: &Entry) -> bool
    ensures { result ≡ goes_on (option_map (λ entry. entry.now) last.entry) entry.now }
{
    match last {
        None => true,
        Some(last) => goes_on_from(last, entry),
    }
}

fn goes_on_from(last: &Entry, entry: &Entry) -> bool
    ensures { result ≡ goes_on_from last.now entry.now }
{
    last.state().count <= entry.state().count
        && last_number(last.state()) <= last_number(entry.state())
        && last.home().moves <= entry.home().moves
}

// The last number of a line; 0 where there was none.
fn last_number(state: DeviceState) -> u32
    ensures { result ≡ last_number state.last }
{
    match state.last {
        Some((number, _)) => number,
        None => 0,
    }
}
