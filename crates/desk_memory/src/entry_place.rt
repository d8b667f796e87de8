ghost use Rattle.std.specs.Prelude.{◌≡◌, ◌<◌, ◌≤◌, length};
ghost use Rattle.desk_memory.specs.Entry.{with_entry, place_for};

use crate::entry::Entry;

/// Where an entry goes: to its device's last, where that has its mark, and else behind all.
pub fn place_for(entries: &[Entry], new: &Entry) -> usize
    ensures place { result ≡ place_for entries.now new.now }
    ensures within { result ≤ length entries.now }
{
    let mut place = entries.len();
    for (index, entry) in entries.iter().enumerate() {
        if entry.name() == new.name() {
            place = if entry.mark() == new.mark() {
                index
            } else {
                entries.len()
            };
        }
    }
    place
}

/// Puts an entry at its place, where there is room for one more.
pub fn set_entry(entries: &mut Vec<Entry>, place: usize, new: Entry)
    requires place { place ≡ place_for entries.old.items new }
    requires room { length entries.old.items < entries.old.cap }
    ensures { entries.new.items ≡ with_entry entries.old.items new }
{
    if place < entries.len() {
        entries[place] = new;
    } else {
        entries.push_reserved(new);
    }
}
