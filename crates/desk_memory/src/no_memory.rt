use crate::device_state::DeviceState;
use crate::memory::Memory;
use crate::memory_fault::MemoryFault;

/// The memory of a desk that has none: nothing is found of it, and no call fails.
#[derive(Clone, Copy, Debug)]
pub struct NoMemory;

impl Memory for NoMemory {
    ghost use Rattle.std.specs.Prelude.{ℕ, List};
    ghost use Rattle.desk_memory.specs.Entry.{Entry};

    ghost stands = { λ memory entries. Unit {0} };

    ghost may_leave = { λ memory found. ⊥ };

    ghost is_honest = { λ memory. Unit {0} };

    ghost is_whole = { λ memory. Unit {0} };

    ghost faults = { λ memory. 0 };

    ghost lacks = { ⊥ };

    fn note(
        &mut self,
        _name: &[u8],
        _key: &[u8; 64],
        _state: DeviceState,
    ) -> Result<(), MemoryFault> {
        Ok(())
    }

    fn settle(&mut self) -> Result<(), MemoryFault> {
        Ok(())
    }
}
