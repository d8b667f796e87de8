ghost use Rattle.std.specs.Prelude.{◌≡◌};
ghost use Rattle.part_definitions.specs.Memory.{is_program, is_image_place, takes_write, rom_byte};
ghost use Rattle.mem_map.specs.Span.{is_span};

use device_types::{AUX_WORD, EXEC_WORD, META, PROGRAM, RAM, ROM_EXIT, VECTORS, XS};

/// How many places the address space has.
pub const PLACES: usize = 0x1_0000;

// In the program, or in the vectors above it.
fn is_program(place: u16) -> bool
    ensures { result ≡ is_program place }
{
    PROGRAM.first <= place && place <= VECTORS.last
}

/// Whether an image may hold a byte at this place: in RAM, program or vectors.
pub fn is_image_place(place: u16) -> bool
    ensures { result ≡ is_image_place place }
{
    RAM.contains(place) || is_program(place)
}

/// Whether the bytes from one place to another lie wholly in RAM, or wholly in program and vectors.
pub fn is_span(first: u16, last: u16) -> bool
    ensures { result ≡ is_span first last }
{
    first <= last
        && ((RAM.contains(first) && RAM.contains(last)) || (is_program(first) && is_program(last)))
}

/// Whether a write to this place leaves its byte there. Most are to RAM above the metadata.
#[inline(always)]
pub fn takes_write(place: u16) -> bool
    ensures { result ≡ takes_write place }
{
    (META.last < place && place <= RAM.last) || takes_write_apart(place)
}

// Likewise, wherever it is.
#[inline(never)]
fn takes_write_apart(place: u16) -> bool
    ensures { result ≡ takes_write place }
{
    let is_flag_word = EXEC_WORD <= place && place <= AUX_WORD + 1;
    (is_image_place(place) && !is_flag_word) || XS.contains(place)
}

/// What the attestation ROM reads as at this place.
pub fn rom_byte(place: u16) -> u8
    ensures { result ≡ rom_byte place }
{
    if place == ROM_EXIT {
        0x30
    } else if place == ROM_EXIT + 1 {
        0x41
    } else if place % 2 == 0 {
        0x03
    } else {
        0x43
    }
}
