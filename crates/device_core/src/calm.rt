ghost use Rattle.std.specs.Prelude.{◌≡◌};
ghost use Rattle.device_core.specs.Calm.{is_above_rom, is_calm_access, is_calm_turn, is_free};

use crate::turn::Turn;
use device_types::{Access, CR, Kind, META, PROGRAM, RAM, Region, VECTORS};

/// All that is above the ROM.
pub const ABOVE_ROM: Region = Region {
    first: PROGRAM.first,
    last: VECTORS.last,
};

/// Whether a region is above the ROM.
#[inline(always)]
pub fn is_above_rom(region: Region) -> bool
    ensures { result ≡ is_above_rom region }
{
    CR.last < region.first
}

/// Whether the step of this turn is calm with code in this region, if the DMA asks for nothing.
#[inline(always)]
pub fn is_calm(code: Region, turn: &Turn) -> bool
    ensures { result ≡ is_calm_turn code turn.now }
{
    turn.kind == Kind::Cpu
        && !turn.irq
        && code.contains(turn.pc)
        && is_calm_access(code, turn.access)
}

// A fetch in this region, a read in free RAM or above the ROM, or a write to free RAM.
#[inline(always)]
fn is_calm_access(code: Region, access: Option<Access>) -> bool
    ensures { result ≡ is_calm_access code access }
{
    match access {
        None => false,
        Some(Access::Fetch(place)) => code.contains(place) && code.contains_next(place),
        Some(Access::Read(place, _)) => is_free(place) || CR.last < place,
        Some(Access::Write(place, _, _)) => is_free(place),
    }
}

// In RAM above the metadata.
#[inline(always)]
fn is_free(place: u16) -> bool
    ensures { result ≡ is_free place }
{
    META.last < place && place <= RAM.last
}
