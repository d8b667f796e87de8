ghost use Rattle.std.specs.Prelude.{◌≡◌, ◌+◌, ◌-◌, ◌*◌, ◌/◌, ◌&&◌, ◌∷◌, [], List, IfOk, IfSome, IsSome, IsTrue, ◌↔◌, length, vec_len};
ghost use Rattle.word_arith.specs.declared.size.Size.{Size};
ghost use Rattle.device_types.specs.Address.{even};
ghost use Rattle.part_definitions.specs.{Memory.{PowerOn, ShownFlags, MemoryWrite, no_flags, byte_at, number_at, aligned_place, with_bytes, bytes_from}, Metadata.bounds_in};
ghost use Rattle.mem_map.specs.{Image.power_on_of, Span.is_span};

use crate::image::Image;
use crate::place::{PLACES, is_image_place, is_span, rom_byte, takes_write};
use device_types::{AUX_WORD, Bounds, CR, ER_MAX, ER_MIN, EXEC_WORD, KR, OR_MAX, OR_MIN, even};
use std::alloc::{AllocError, Global};
use word_arith::Size;

// The byte at a place before the first write.
fn power_on_byte(key: &[u8; 64], image: &Image, place: u16) -> u8
    ensures { result ≡ byte_at (power_on_of key.now image.now) no_flags [] place }
{
    if is_image_place(place) && takes_write(place) {
        image.get(place).unwrap_or(0)
    } else if KR.contains(place) {
        key[usize::from(place - KR.first)]
    } else if CR.contains(place) {
        rom_byte(place)
    } else {
        0
    }
}

/// The device's memory, with peripherals read as unmapped.
#[derive(Drop)]
pub struct Memory {
    bytes: Vec<u8>,
    ghost whole: { vec_len bytes ≡ 65536 },
}

impl Memory {
    ghost use Rattle.mem_map.specs.Memory.{MemoryStandsFor, Tells, Writes};

    /// The memory at power-on.
    pub fn new(alloc: Global, key: &[u8; 64], image: &Image) -> Result<Memory, AllocError>
        ensures { IfOk result (λ memory.
            MemoryStandsFor memory (power_on_of key.now image.now) no_flags []) }
    {
        let mut bytes = Vec::with_capacity(alloc, PLACES)?;
        for place in 0..PLACES {
            bytes.push(power_on_byte(key, image, place as u16))?;
        }
        Ok(Memory { bytes })
    }

    /// A memory with the same bytes.
    pub fn try_clone(&self, alloc: Global) -> Result<Memory, AllocError>
        ensures { IfOk result (λ other. Writes self.now (λ writes. writes) other) }
    {
        let mut bytes = Vec::with_capacity(alloc, PLACES)?;
        bytes.extend_from_slice(self.bytes.as_slice())?;
        Ok(Memory { bytes })
    }

    fn byte(&self, place: u16) -> u8
        ensures { Tells self.now (λ bytes. bytes place) result }
    {
        self.bytes[usize::from(place)]
    }

    fn set_byte(&mut self, place: u16, byte: u8)
        ensures { Writes self.old
            (λ writes. record { place = place; byte = byte } ∷ writes) self.new }
    {
        if takes_write(place) {
            self.bytes[usize::from(place)] = byte;
        }
    }

    // Both bytes of a word take writes, or none does.
    #[inline(always)]
    #[tactic(auto, using(crate::proofs::Word::word_taken, crate::proofs::Word::word_refused))]
    fn set_word(&mut self, place: u16, low: u8, high: u8)
        ensures { Writes self.old
            (λ writes. record { place = even place + 1; byte = high }
            ∷ record { place = even place; byte = low }
            ∷ writes) self.new }
    {
        let first = even(place);
        if takes_write(first) {
            let first = usize::from(first);
            self.bytes[first] = low;
            self.bytes[first + 1] = high;
        }
    }

    /// The byte or the little-endian word at a place. The address of a word has bit 0 cleared.
    pub fn read(&self, place: u16, size: Size) -> u16
        ensures { Tells self.now (λ bytes. number_at bytes place size) result }
    {
        match size {
            Size::Byte => u16::from(self.byte(place)),
            Size::Word => {
                let low = usize::from(even(place));
                u16::from_le_bytes([self.bytes[low], self.bytes[low + 1]])
            }
        }
    }

    /// Writes a byte or a little-endian word. The address of a word has bit 0 cleared. Where the
    /// memory map takes no write nothing changes.
    #[inline(always)]
    pub fn write(&mut self, place: u16, size: Size, value: u16)
        ensures { Writes self.old (with_bytes size (aligned_place size place) value) self.new }
    {
        let [low, high] = value.to_le_bytes();
        match size {
            Size::Byte => self.set_byte(place, low),
            Size::Word => self.set_word(place, low, high),
        }
    }

    /// Shows the EXEC flag in the EXEC word of the metadata.
    pub fn set_exec(&mut self, on: bool)
        ensures { (start : PowerOn) (flags : ShownFlags) (writes : List MemoryWrite)
            → MemoryStandsFor self.old start flags writes
            → MemoryStandsFor self.new start (record flags { exec = on }) writes }
    {
        self.bytes[usize::from(EXEC_WORD)] = u8::from(on);
    }

    /// Shows the second flag in the AUX word of the metadata.
    pub fn set_aux(&mut self, on: bool)
        ensures { (start : PowerOn) (flags : ShownFlags) (writes : List MemoryWrite)
            → MemoryStandsFor self.old start flags writes
            → MemoryStandsFor self.new start (record flags { aux = on }) writes }
    {
        self.bytes[usize::from(AUX_WORD)] = u8::from(on);
    }

    /// Whether the second flag is shown as set.
    pub fn shows_aux(&self) -> bool
        ensures { (start : PowerOn) (flags : ShownFlags) (writes : List MemoryWrite)
            → MemoryStandsFor self.now start flags writes
            → result ≡ flags.aux }
    {
        self.bytes[usize::from(AUX_WORD)] != 0
    }

    /// ERmin, the first address of the executable region, as the metadata has it.
    pub fn er_min(&self) -> u16
        ensures { Tells self.now (λ bytes. (bounds_in bytes).er_min) result }
    {
        self.read(ER_MIN, Size::Word)
    }

    /// The bounds of the executable and the output region, as the metadata has them.
    pub fn bounds(&self) -> Bounds
        ensures { Tells self.now bounds_in result }
    {
        Bounds {
            er_min: self.er_min(),
            er_max: self.read(ER_MAX, Size::Word),
            or_min: self.read(OR_MIN, Size::Word),
            or_max: self.read(OR_MAX, Size::Word),
        }
    }

    /// The bytes of a range that lies wholly in RAM, or wholly in program and vectors; `last` is
    /// the address of its last byte.
    pub fn span(&self, first: u16, last: u16) -> Option<&[u8]>
        ensures within { IsSome result ↔ IsTrue (is_span first last) }
        ensures long { IfSome result (λ piece. length piece.now ≡ last + 1 - first) }
        ensures bytes { IfSome result (λ piece.
            Tells self.now (λ bytes. bytes_from bytes first (last + 1 - first)) piece.now) }
    {
        if is_span(first, last) {
            Some(&self.bytes[usize::from(first)..usize::from(last) + 1])
        } else {
            None
        }
    }
}
