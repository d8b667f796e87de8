ghost use Rattle.std.specs.Prelude.{ℕ, List, Option};
ghost use Rattle.part_definitions.specs.Memory.{PowerOn, ShownFlags, MemoryWrite};
ghost use Rattle.mem_map.specs.{Image.byte_in, Memory.MemoryStandsFor};
ghost use Rattle.outside_edge.specs.Sink.{Puts, CountsFaults};
ghost use Rattle.hex_loader.specs.{HexText.{line_at, hex_text}, ReadBack.ReadsBack, MemoryImage.image_of};

use crate::law::reads_back;
use crate::places::{Places, is_record_start, record_bytes};
use crate::record_line::data_line;
use mem_map::{Image, Memory};
use outside_edge::{Failed, Sink, put_all};

/// Puts the text of an image, which reads as that image. After `Failed` the sink took a prefix of
/// it.
pub fn write_hex<W: Sink>(image: &Image, sink: &mut W) -> Result<(), Failed>
    ensures puts { Puts W.stands sink.old sink.new (hex_text (byte_in image.now)) result }
    ensures read_back { ReadsBack (byte_in image.now) }
    ensures counts { CountsFaults W.faults sink.old sink.new result }
{
    reads_back();
    write_places(image, sink)
}

/// Puts the bytes of RAM, program and vectors as the text of an image. After `Failed` the sink took
/// a prefix of it.
pub fn write_memory<W: Sink>(memory: &Memory, sink: &mut W) -> Result<(), Failed>
    ensures puts { (start : PowerOn) (flags : ShownFlags) (writes : List MemoryWrite)
        → MemoryStandsFor memory.now start flags writes
        → Puts W.stands sink.old sink.new (hex_text (image_of start flags writes)) result }
    ensures counts { CountsFaults W.faults sink.old sink.new result }
{
    write_places(memory, sink)
}

// Puts the text of these bytes.
fn write_places<P: Places, W: Sink>(bytes: &P, sink: &mut W) -> Result<(), Failed>
    ensures puts { (image : ℕ → Option ℕ)
        → P.shows bytes.now image
        → Puts W.stands sink.old sink.new (hex_text image) result }
    ensures counts { CountsFaults W.faults sink.old sink.new result }
{
    for place in 0..0x1_0000u32 {
        write_line_at(bytes, place as u16, sink)?;
    }
    put_all(sink, b":00000001FF\n")
}

// Puts the line of the record that begins at this place, where one does.
fn write_line_at<P: Places, W: Sink>(bytes: &P, place: u16, sink: &mut W) -> Result<(), Failed>
    ensures puts { (image : ℕ → Option ℕ)
        → P.shows bytes.now image
        → Puts W.stands sink.old sink.new (line_at image place) result }
    ensures counts { CountsFaults W.faults sink.old sink.new result }
{
    if !is_record_start(bytes, place) {
        return Ok(());
    }
    put_all(sink, &data_line(place, &record_bytes(bytes, place)))
}
