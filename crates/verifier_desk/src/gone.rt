ghost use Rattle.std.specs.{Prelude.◌≡◌, Option.is_some};
ghost use Rattle.desk_memory.specs.Entry.{home_of, last_in};
ghost use Rattle.verifier_desk.specs.DeviceKey.{first_gone};

use crate::key_list::KeyList;
use desk_memory::{Entry, home_in};

// Whether the device of a name is gone, as these entries have it.
fn is_gone(entries: &[Entry], name: &[u8]) -> bool
    ensures { result ≡ is_some (home_of (last_in entries.now name.now)).gone }
{
    home_in(entries, name).gone.is_some()
}

/// The place of the first device that is gone to another desk, as these entries have it.
pub fn first_gone(keys: &KeyList, entries: &[Entry]) -> Option<usize>
    ensures { result ≡ first_gone entries.now 0 keys.now }
{
    for (place, device) in keys.devices().iter().enumerate() {
        if is_gone(entries, device.name()) {
            return Some(place);
        }
    }
    None
}
