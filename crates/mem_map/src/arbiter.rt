ghost use Rattle.std.specs.Prelude.{◌≡◌, List};
ghost use Rattle.part_definitions.specs.Memory.{PowerOn, ShownFlags, MemoryWrite, byte_at, memory_read, with_access};
ghost use Rattle.mem_map.specs.Memory.{MemoryStandsFor};

use crate::memory::Memory;
use device_types::Access;
use word_arith::Size;

/// Makes the write of the processor's access, where it is one, and then the access of the DMA,
/// which sees that write. What the DMA read, 0 for a write and for none.
#[inline(always)]
pub fn exchange(memory: &mut Memory, cpu: Option<Access>, dma: Option<Access>) -> u16
    ensures value { (start : PowerOn) (flags : ShownFlags) (writes : List MemoryWrite)
        → MemoryStandsFor memory.old start flags writes
        → result ≡ memory_read (byte_at start flags (with_access cpu writes)) dma }
    ensures memory { (start : PowerOn) (flags : ShownFlags) (writes : List MemoryWrite)
        → MemoryStandsFor memory.old start flags writes
        → MemoryStandsFor memory.new start flags (with_access dma (with_access cpu writes)) }
{
    make_write(memory, cpu);
    make(memory, dma)
}

// Makes an access where it is a write.
#[inline(always)]
fn make_write(memory: &mut Memory, access: Option<Access>)
    ensures { (start : PowerOn) (flags : ShownFlags) (writes : List MemoryWrite)
        → MemoryStandsFor memory.old start flags writes
        → MemoryStandsFor memory.new start flags (with_access access writes) }
{
    match access {
        Some(Access::Write(place, size, number)) => memory.write(place, size, number),
        Some(Access::Fetch(_) | Access::Read(..)) | None => {}
    }
}

// Makes an access. What it read, 0 for a write and for none.
#[inline(always)]
fn make(memory: &mut Memory, access: Option<Access>) -> u16
    ensures value { (start : PowerOn) (flags : ShownFlags) (writes : List MemoryWrite)
        → MemoryStandsFor memory.old start flags writes
        → result ≡ memory_read (byte_at start flags writes) access }
    ensures memory { (start : PowerOn) (flags : ShownFlags) (writes : List MemoryWrite)
        → MemoryStandsFor memory.old start flags writes
        → MemoryStandsFor memory.new start flags (with_access access writes) }
{
    match access {
        None => 0,
        Some(Access::Fetch(place)) => memory.read(place, Size::Word),
        Some(Access::Read(place, size)) => memory.read(place, size),
        Some(Access::Write(place, size, number)) => {
            memory.write(place, size, number);
            0
        }
    }
}
