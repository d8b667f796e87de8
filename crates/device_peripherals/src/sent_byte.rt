ghost use Rattle.std.specs.Prelude.{◌≡◌};
ghost use Rattle.part_definitions.specs.Serial.{byte_sent};

use crate::part::covers_byte;
use device_types::SERIAL;
use word_arith::Size;

// The register that sends a byte.
const STXD: u16 = SERIAL.first + 6;

/// The byte that a write of the processor sends: one that covers the low byte of STXD.
#[inline(always)]
pub fn byte_sent(place: u16, size: Size, number: u16) -> Option<u8>
    ensures { result ≡ byte_sent place size number }
{
    if covers_byte(place, size, STXD) {
        Some((number % 0x100) as u8)
    } else {
        None
    }
}
