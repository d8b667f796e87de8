ghost use Rattle.std.specs.Prelude.{◌≡◌, IfOk};

use crate::entry::Entry;
use std::alloc::{AllocError, Global};

/// The same entries once more.
pub fn copy_of(alloc: Global, entries: &[Entry]) -> Result<Vec<Entry>, AllocError>
    ensures { IfOk result (λ copy. copy.items ≡ entries.now) }
{
    let mut copy = Vec::new(alloc);
    for entry in entries {
        let entry = entry.copy(alloc)?;
        copy.push(entry)?;
    }
    Ok(copy)
}
