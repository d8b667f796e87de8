ghost use Rattle.std.specs.Prelude.{◌≡◌, ◌≤◌, ◌+◌, ◌-◌, ◌++◌, length};
ghost use Rattle.mem_map.specs.Image.{byte_in, image_byte};
ghost use Rattle.part_definitions.specs.Memory.{bytes_from};

use crate::byte_list::ByteList;
use mem_map::Image;

/// Puts the image's bytes from one place up to another, 0 where it has none, where they fit.
pub fn push_code<const MOST: usize>(list: &mut ByteList<MOST>, image: &Image, first: u16, end: u16)
    requires { first ≤ end }
    ensures { length list.old + (end - first) ≤ MOST
        → list.new ≡ list.old ++ bytes_from (image_byte (byte_in image.now)) first (end - first) }
{
    for place in first..end {
        list.push(&[image.get(place).unwrap_or(0)]);
    }
}
