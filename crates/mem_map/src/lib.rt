//! The memory of the device and the image that it is powered on with.
//!
//! An [`Image`] is a finite map from places to bytes. A [`Memory`] holds at each place the byte
//! that was last written there, else the image's, the key's or the one that the memory map fixes.
//! In a step it takes what the processor or the ROM writes, and then makes the access of the DMA,
//! which sees that ([`exchange`]).
#![tactic(auto)]

mod arbiter;
mod image;
mod memory;
mod place;

pub use arbiter::exchange;
pub use image::Image;
pub use memory::Memory;
