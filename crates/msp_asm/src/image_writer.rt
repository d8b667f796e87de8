ghost use Rattle.std.specs.{Prelude.{◌≡◌, ◌==◌, ◌&&◌, ℕ, Some, IsTrue, if◌then◌else◌}, Option.option_or};
ghost use Rattle.part_definitions.specs.Memory.{is_image_place};
ghost use Rattle.mem_map.specs.Image.{byte_in, byte_among};

use mem_map::Image;

// Puts one byte, where an image may hold one.
fn place_byte(image: &mut Image, place: u64, byte: u8)
    ensures { (other : ℕ)
        → byte_in image.new other
        ≡ (if is_image_place place && (other == place) then Some byte
        else byte_in image.old other) }
{
    if let Ok(place) = u16::try_from(place) {
        image.set(place, byte);
    }
}

/// Puts bytes from a place upwards, where an image may hold them.
pub fn place_bytes(image: &mut Image, first: u32, bytes: &[u8])
    ensures { (place : ℕ) → IsTrue (is_image_place place)
        → byte_in image.new place
        ≡ option_or (byte_among first bytes.now place) (byte_in image.old place) }
{
    let mut place = u64::from(first);
    for byte in bytes {
        place_byte(image, place, *byte);
        place += 1;
    }
}
