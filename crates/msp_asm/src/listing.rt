ghost use Rattle.std.specs.Prelude.{Option, Some};
ghost use Rattle.mem_map.specs.Image.{byte_in};
ghost use Rattle.msp_asm.specs.{Item.item_at, Listing.IsLineAt};

use crate::item::Item;
use crate::item_text::push_item;
use line_buffer::LineBuffer;
use mem_map::Image;

/// One line of a listing.
#[derive(Clone, Copy, Debug)]
pub struct Listing {
    /// How many bytes of the image the line is of: the next item begins after them.
    pub size: u16,
    /// The line and its LF are the first `len` bytes.
    pub text: [u8; 40],
    pub len: usize,
}

/// The line of the item at a place, `None` exactly where the image has no byte there.
pub fn line(image: &Image, at: u16) -> Option<Listing>
    ensures { IsLineAt at (item_at (byte_in image.now) at) result }
{
    let item = Item::at(image, at)?;
    let mut line = LineBuffer::new();
    line.push_word(at);
    line.push(b": ");
    push_item(&mut line, at, &item);
    line.push(b"\n");
    let bytes = line.as_slice();
    let mut text = [0; 40];
    text[..bytes.len()].copy_from_slice(bytes);
    Some(Listing {
        size: item.size(),
        text,
        len: bytes.len(),
    })
}
