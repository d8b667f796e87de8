ghost use Rattle.std.specs.{Prelude.◌≡◌, Option.option_map};
ghost use Rattle.desk_memory.specs.Entry.{home_fields, home_of, last_in};

use crate::entry::Entry;
use crate::home::Home;

/// The last entry of the device of a name.
pub fn last_of<'a>(entries: &'a [Entry], name: &[u8]) -> Option<&'a Entry>
    ensures { option_map (λ entry. entry.now) result ≡ last_in entries.now name.now }
{
    let mut last = None;
    for entry in entries {
        if entry.name() == name {
            last = Some(entry);
        }
    }
    last
}

/// Where the device of a name is at home, as these entries have it.
pub fn home_in<'a>(entries: &'a [Entry], name: &[u8]) -> Home<'a>
    ensures { home_fields result ≡ home_of (last_in entries.now name.now) }
{
    match last_of(entries, name) {
        Some(entry) => entry.home(),
        None => Home {
            moves: 0,
            gone: None,
        },
    }
}
