ghost use Rattle.sha2.specs.Sha256.{sha256};
ghost use Rattle.desk_memory.specs.KeyMark.{key_mark};
ghost use Rattle.verifier_desk.specs.Answering.{NotesIf, OnlyNotes};

use crate::device_key::DeviceKey;
use desk_memory::{DeviceState, Memory, MemoryFault};

/// Notes the state of a device, where it is new.
pub fn note_new<M: Memory>(
    is_new: bool,
    device: &DeviceKey,
    state: DeviceState,
    memory: &mut M,
) -> Result<(), MemoryFault>
    ensures notes { NotesIf M.Memory memory.old memory.new is_new
        (record { name = device.now.name; mark = key_mark sha256 device.now.key; state = state })
        result }
    ensures only { OnlyNotes M.Memory memory.old memory.new }
{
    if is_new {
        memory.note(device.name(), device.key(), state)?;
    }
    Ok(())
}
