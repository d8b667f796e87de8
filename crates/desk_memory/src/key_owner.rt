ghost use Rattle.std.specs.{Prelude.◌≡◌, Option.option_map};
ghost use Rattle.desk_memory.specs.Entry.{owner_in};

use crate::entry::Entry;
use crate::key_mark::MARK;

/// The name that the key of a mark stands under, as these entries have it.
pub fn owner_of<'a>(entries: &'a [Entry], mark: &[u8; MARK]) -> Option<&'a [u8]>
    ensures { option_map (λ name. name.now) result ≡ owner_in entries.now mark.now }
{
    for entry in entries {
        if entry.mark() == mark {
            return Some(entry.name());
        }
    }
    None
}
