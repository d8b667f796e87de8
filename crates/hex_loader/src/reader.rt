ghost use Rattle.std.specs.{Prelude.{◌≡◌, ◌+◌, ◌∷◌, ◌==◌, ◌<◌, ◌^◌, ◌&&◌, ℕ, true, false, List, Some, None, length, IfErr, IfOk, OnOk, if◌then◌else◌}, Option.option_or, Result.result_err};
ghost use Rattle.part_definitions.specs.Memory.{is_image_place};
ghost use Rattle.mem_map.specs.Image.{byte_in, byte_among};
ghost use Rattle.text_scan.specs.{declared.fault_at.FaultAt.FaultAt, Reader.{Reads, value_as}};
ghost use Rattle.hex_loader.specs.{HexRecord.{meaning, record_in}, HexImage.{image_of, are_image_places, base_after, has_ended, line_fault, hex_fault, hex_byte}};

use crate::hex_record::{HexRecord, MOST_BYTES, record_of_line};
use mem_map::Image;
use std::alloc::Global;
use text_scan::{FaultAt, FaultKind, Lines, TextFault};

/// The image of an Intel HEX text, or the first fault of its first faulty line. Where no line has a
/// fault and there is no end record, the fault `NoEnd` has the number of lines.
pub fn read_hex(alloc: Global, text: &[u8]) -> Result<Image, TextFault>
    ensures { Reads (value_as byte_in result) (image_of text.now) }
{
    match Image::new(alloc) {
        Ok(image) => read_into(image, text).map_err(TextFault::At),
        Err(error) => Err(TextFault::Memory(error)),
    }
}

// Reads a text into an empty image.
fn read_into(image: Image, text: &[u8]) -> Result<Image, FaultAt>
    requires { (place : ℕ) → byte_in image place ≡ None }
    ensures bytes { IfOk result (λ image.
        (place : ℕ) → byte_in image place ≡ hex_byte text.now place) }
    ensures fault { result_err result ≡ hex_fault text.now }
{
    let mut reader = Reader {
        image,
        base: 0,
        has_ended: false,
    };
    let mut count = 0;
    for (number, line) in Lines::new(text) {
        if let Err(kind) = reader.read_line(line) {
            return Err(FaultAt { line: number, kind });
        }
        count = number;
    }
    if !reader.has_ended {
        return Err(FaultAt {
            line: count,
            kind: FaultKind::NoEnd,
        });
    }
    Ok(reader.image)
}

// Puts one byte at a place that an image may hold.
fn set_byte(image: &mut Image, place: u64, byte: u8) -> bool
    ensures taken { result ≡ is_image_place place }
    ensures bytes { (other : ℕ)
        → byte_in image.new other
        ≡ (if result && (other == place) then Some byte else byte_in image.old other) }
{
    match u16::try_from(place) {
        Ok(place) => image.set(place, byte),
        Err(_) => false,
    }
}

// Puts these bytes from a place upwards.
fn set_bytes(image: &mut Image, first: u64, bytes: &[u8]) -> Result<(), FaultKind>
    requires { first + length bytes.now < 2 ^ 64 }
    ensures taken { OnOk result (are_image_places first bytes.now ≡ true) }
    ensures bytes { OnOk result ((place : ℕ) → byte_in image.new place
        ≡ option_or (byte_among first bytes.now place) (byte_in image.old place)) }
    ensures refused { IfErr result (λ kind.
        (kind ≡ FaultKind.Place) × (are_image_places first bytes.now ≡ false)) }
{
    let mut place = first;
    for byte in bytes {
        if !set_byte(image, place, *byte) {
            return Err(FaultKind::Place);
        }
        place += 1;
    }
    Ok(())
}

/// A text that is read line by line.
#[derive(Drop)]
pub struct Reader {
    image: Image,
    base: u32,
    has_ended: bool,
}

impl Reader {
    ghost use Rattle.std.specs.{Prelude.{◌≡◌, ◌∷◌, ℕ, List, Ok, OnOk}, Result.result_err};
    ghost use Rattle.hex_loader.specs.{HexRecord.{meaning, record_in}, HexImage.{base_after, record_fault, line_fault, ReaderStandsFor}};

    // Does what a record says.
    fn take(&mut self, item: HexRecord<'_>) -> Result<(), FaultKind>
        ensures fault { (earlier : List (List ℕ))
            → ReaderStandsFor self.old earlier
            → result_err result ≡ record_fault (base_after earlier) (Ok (meaning item.entry)) }
        ensures taken { (earlier : List (List ℕ)) (line : List ℕ)
            → ReaderStandsFor self.old earlier
            → record_in line ≡ Ok (meaning item.entry)
            → OnOk result (ReaderStandsFor self.new (line ∷ earlier)) }
    {
        match item {
            HexRecord::Data(address, bytes) => {
                let first = u64::from(self.base) + u64::from(address);
                set_bytes(&mut self.image, first, bytes)
            }
            HexRecord::End => {
                self.has_ended = true;
                Ok(())
            }
            HexRecord::Base(base) => {
                self.base = base;
                Ok(())
            }
            HexRecord::Start => Ok(()),
        }
    }

    fn read_line(&mut self, line: &[u8]) -> Result<(), FaultKind>
        ensures fault { (earlier : List (List ℕ))
            → ReaderStandsFor self.old earlier
            → result_err result ≡ line_fault earlier line.now }
        ensures taken { (earlier : List (List ℕ))
            → ReaderStandsFor self.old earlier
            → OnOk result (ReaderStandsFor self.new (line.now ∷ earlier)) }
    {
        if line.is_empty() {
            return Ok(());
        }
        if self.has_ended {
            return Err(FaultKind::AfterEnd);
        }
        let mut room = [0; MOST_BYTES];
        let record = record_of_line(line, &mut room)?;
        self.take(record)
    }
}
