ghost use Rattle.std.specs.Prelude.{◌≡◌, ◌==◌, ◌&&◌, ℕ, IfOk, Some, None, if◌then◌else◌, vec_len, slice_index_or};
ghost use Rattle.part_definitions.specs.Memory.{is_image_place};
ghost use Rattle.mem_map.specs.ImagePlace.{IsImage};

use crate::place::{PLACES, is_image_place};
use std::alloc::{AllocError, Global};

/// The contents of RAM, program and vectors at power-on: a byte or nothing for each place.
#[derive(Drop)]
pub struct Image {
    bytes: Vec<Option<u8>>,
    ghost whole: { vec_len bytes ≡ 65536 },
    pub ghost placed: { IsImage (λ place. slice_index_or bytes.items place None) },
}

impl Image {
    ghost use Rattle.mem_map.specs.Image.{byte_in};

    /// The empty image. It takes all the memory that it will need.
    pub fn new(alloc: Global) -> Result<Image, AllocError>
        ensures { IfOk result (λ image. (place : ℕ) → byte_in image place ≡ None) }
    {
        let mut bytes = Vec::with_capacity(alloc, PLACES)?;
        for _place in 0..PLACES {
            bytes.push(None)?;
        }
        Ok(Image { bytes })
    }

    /// Puts a byte at a place that an image may hold: 0200..21FF and C000..FFFF. Elsewhere nothing
    /// changes.
    pub fn set(&mut self, place: u16, byte: u8) -> bool
        ensures taken { result ≡ is_image_place place }
        ensures bytes { (other : ℕ)
            → byte_in self.new other
            ≡ (if result && (other == place) then Some byte else byte_in self.old other) }
    {
        if !is_image_place(place) {
            return false;
        }
        self.bytes[usize::from(place)] = Some(byte);
        true
    }

    /// The byte at a place, if the image has one there.
    pub fn get(&self, place: u16) -> Option<u8>
        ensures { result ≡ byte_in self.now place }
    {
        self.bytes[usize::from(place)]
    }
}
