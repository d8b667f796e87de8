ghost use Rattle.std.specs.Prelude.{◌≡◌, ◌==◌, is_some, if◌then◌else◌};
ghost use Rattle.device_types.specs.Map.{ROM_ENTRY};
ghost use Rattle.part_definitions.specs.{CpuRegister.is_asleep, CpuState.{CpuState, registers_of}};
ghost use Rattle.msp_exec.specs.Course.{CpuStandsFor};
ghost use Rattle.device_trace.specs.Progress.{boundary_kind};

use device_types::{CR, Kind, ROM_ENTRY};
use msp_exec::Cpu;

/// Whose step comes next, at a boundary: a call of the ROM, code inside the ROM, an interrupt,
/// sleep, or an instruction.
pub fn boundary_kind(processor: &Cpu, vector: Option<u16>) -> Kind
    ensures { (state : CpuState)
        → CpuStandsFor processor.now state
        → result ≡ boundary_kind (registers_of state) vector }
{
    let pc = processor.pc();
    if is_rom_entry(pc) {
        Kind::Rom
    } else if CR.contains(pc) {
        Kind::Cpu
    } else {
        kind_outside_rom(processor, vector)
    }
}

// Whose step comes next at a boundary outside the ROM.
fn kind_outside_rom(processor: &Cpu, vector: Option<u16>) -> Kind
    ensures { (state : CpuState)
        → CpuStandsFor processor.now state
        → result ≡ (if is_some vector then Kind.Irq else if is_asleep (registers_of state) then
        Kind.Idle else Kind.Cpu) }
{
    if vector.is_some() {
        Kind::Irq
    } else if processor.is_asleep() {
        Kind::Idle
    } else {
        Kind::Cpu
    }
}

fn is_rom_entry(pc: u16) -> bool
    ensures { result ≡ (pc == ROM_ENTRY) }
{
    pc == ROM_ENTRY
}
