ghost use Rattle.std.specs.Prelude.{◌≡◌, ℕ, Option};
ghost use Rattle.hex_loader.specs.HexText.{is_record_start, record_bytes};

use crate::record_line::MOST_DATA;
use arrayvec::ArrayVec;
use mem_map::{Image, Memory};

// A record's data ends before the next multiple of this.
const MOST_PLACES: u16 = MOST_DATA as u16;

/// Bytes by their places: an image's, or those of a memory.
pub trait Places {
    ghost use Rattle.std.specs.Prelude.{◌≡◌, ℕ, Option};

    /// The bytes that it stands for.
    ghost shows: { Self → (ℕ → Option ℕ) → Type 0 };

    fn byte(&self, place: u16) -> Option<u8>
        ensures { (image : ℕ → Option ℕ) → shows self.now image → result ≡ image place };
}

impl Places for Image {
    ghost use Rattle.std.specs.Prelude.{◌≡◌};
    ghost use Rattle.mem_map.specs.Image.{byte_in};

    ghost shows = { λ bytes image. image ≡ byte_in bytes };

    fn byte(&self, place: u16) -> Option<u8> {
        self.get(place)
    }
}

impl Places for Memory {
    ghost use Rattle.hex_loader.specs.MemoryImage.{MemoryShows};

    ghost shows = { MemoryShows };

    fn byte(&self, place: u16) -> Option<u8> {
        self.span(place, place)?.first().copied()
    }
}

/// Whether a record begins at this place.
pub fn is_record_start<P: Places>(bytes: &P, place: u16) -> bool
    ensures { (image : ℕ → Option ℕ)
        → P.shows bytes.now image
        → result ≡ is_record_start image place }
{
    bytes.byte(place).is_some() && (place % MOST_PLACES == 0 || bytes.byte(place - 1).is_none())
}

/// The bytes of a record that begins at this place.
pub fn record_bytes<P: Places>(bytes: &P, place: u16) -> ArrayVec<u8, MOST_DATA>
    ensures { (image : ℕ → Option ℕ)
        → P.shows bytes.now image
        → result.items ≡ record_bytes image place }
{
    let mut data = ArrayVec::new();
    for offset in 0..MOST_PLACES - place % MOST_PLACES {
        let Some(byte) = bytes.byte(place + offset) else {
            return data;
        };
        data.push(byte);
    }
    data
}
