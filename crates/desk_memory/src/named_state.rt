ghost use Rattle.std.specs.Prelude.{◌≡◌};
ghost use Rattle.desk_memory.specs.Entry.{last_in, state_under};

use crate::device_state::DeviceState;
use crate::entry::Entry;
use crate::key_mark::MARK;
use crate::last_entry::last_of;

/// The state of the device of a name under a key of this mark, as these entries have it.
pub fn state_of(entries: &[Entry], name: &[u8], mark: &[u8; MARK]) -> DeviceState
    ensures { result ≡ state_under mark.now (last_in entries.now name.now) }
{
    match last_of(entries, name) {
        Some(entry) => entry.state_under(mark),
        None => DeviceState::new(),
    }
}
