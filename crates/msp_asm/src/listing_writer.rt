ghost use Rattle.std.specs.Prelude.{◌≡◌, ◌<◌, IfOk};
ghost use Rattle.mem_map.specs.Image.{byte_in};
ghost use Rattle.outside_edge.specs.Sink.{Puts, CountsFaults};
ghost use Rattle.msp_asm.specs.{Item.item_at, Listing.{item_begun, line_at, free_after, listing}};

use crate::listing::line;
use mem_map::Image;
use outside_edge::{Failed, Sink, put_all};

/// Puts the listing of an image: the lines of its items upwards, each of which begins after the
/// bytes of the one before. After `Failed` the sink took a prefix of it.
pub fn write_listing<W: Sink>(image: &Image, sink: &mut W) -> Result<(), Failed>
    ensures puts { Puts W.stands sink.old sink.new (listing (byte_in image.now)) result }
    ensures counts { CountsFaults W.faults sink.old sink.new result }
{
    let mut free = 0;
    for place in 0..0x1_0000u32 {
        free = write_item(image, place as u16, free, sink)?;
    }
    Ok(())
}

// Puts the line of the item that begins at this place, where one does; `free` is the first place
// after the items before. Gives the first place after this one too.
fn write_item<W: Sink>(image: &Image, place: u16, free: u32, sink: &mut W) -> Result<u32, Failed>
    ensures puts { Puts W.stands sink.old sink.new
        (line_at place (item_begun free place (item_at (byte_in image.now) place))) result }
    ensures free { IfOk result (λ next. next
        ≡ free_after free place (item_begun free place (item_at (byte_in image.now) place))) }
    ensures counts { CountsFaults W.faults sink.old sink.new result }
{
    if u32::from(place) < free {
        return Ok(free);
    }
    let Some(listing) = line(image, place) else {
        return Ok(free);
    };
    put_all(sink, &listing.text[..listing.len])?;
    Ok(u32::from(place) + u32::from(listing.size))
}
