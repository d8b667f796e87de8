ghost use Rattle.std.specs.Prelude.{◌≡◌};
ghost use Rattle.part_definitions.specs.Serial.{takes_byte};

use crate::part::covers_byte;
use device_types::SERIAL;
use word_arith::Size;

/// The register that gives the oldest byte that waits.
pub const SRXD: u16 = SERIAL.first + 4;

/// Whether a read or fetch of the processor takes a byte: one that covers the low byte of SRXD.
#[inline(always)]
pub fn takes_byte(place: u16, size: Size) -> bool
    ensures { result ≡ takes_byte place size }
{
    covers_byte(place, size, SRXD)
}
