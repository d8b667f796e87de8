ghost use Rattle.std.specs.Prelude.{◌↔◌, Contains, IfOk, IsTrue};
ghost use Rattle.sha2.specs.Sha256.{sha256};
ghost use Rattle.desk_memory.specs.Entry.{owner_in};
ghost use Rattle.verifier_desk.specs.KeyOwner.{IsFirstTaken, IsFreeFor};

use crate::key_list::KeyList;
use desk_memory::{Entry, MARK, mark_of, owner_of};
use std::alloc::{AllocError, Global};

/// The place of the first device whose key stands under another name in these entries, or is that
/// of a device before it.
pub fn first_taken(
    alloc: Global,
    keys: &KeyList,
    entries: &[Entry],
) -> Result<Option<usize>, AllocError>
    ensures { IfOk result (λ place. IsFirstTaken sha256 keys.now entries.now place) }
{
    let mut marks = Vec::new(alloc);
    for place in 0..keys.len() {
        let device = keys.device_at(place);
        let mark = mark_of(device.key());
        if !is_apart(entries, marks.as_slice(), &mark, device.name()) {
            return Ok(Some(place));
        }
        marks.push(mark)?;
    }
    Ok(None)
}

// Whether a key stands under no other name than this, and is none of these.
fn is_apart(entries: &[Entry], marks: &[[u8; MARK]], mark: &[u8; MARK], name: &[u8]) -> bool
    ensures { IsTrue result
        ↔ (IsFreeFor name.now (owner_in entries.now mark.now)
        × (Contains marks.now mark.now → ⊥)) }
{
    is_free_for(entries, mark, name) && !marks.contains(mark)
}

// Whether a key stands under no other name than this.
fn is_free_for(entries: &[Entry], mark: &[u8; MARK], name: &[u8]) -> bool
    ensures { IsTrue result ↔ IsFreeFor name.now (owner_in entries.now mark.now) }
{
    match owner_of(entries, mark) {
        None => true,
        Some(owner) => owner == name,
    }
}
