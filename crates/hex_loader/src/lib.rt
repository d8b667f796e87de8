//! Intel HEX: images read from text, and images and memory written as text.
//!
//! Record types 00 to 05 are read as Intel's "Hexadecimal Object File Format Specification" (1988)
//! has them. Written are records of type 00 of at most 16 bytes, and the end record. The contract
//! of [`read_hex`] is the image of the text, where the last byte placed at a place counts, or the
//! first fault of its first faulty line; that of [`write_hex`] is the text of the image.
#![tactic(auto)]

mod hex_record;
mod hex_text;
mod law;
mod places;
mod reader;
mod record_line;

pub use hex_text::{write_hex, write_memory};
pub use law::reads_back;
pub use reader::read_hex;
