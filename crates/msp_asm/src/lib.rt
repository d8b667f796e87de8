//! The assembler, from a source to an image, and the listing of an image.
//!
//! A source is read into statements, then a first pass over all of them gives places and names, and
//! a second one the bytes. A statement is read in a [`Scope`]: the values of its names, and the
//! address of its first byte. The contract of [`assemble`] is the image, or exactly the first fault
//! of the first of the three that has one; and that each instruction of the source is read from its
//! bytes in the image. An emulated instruction is the processor's that it stands for, and the words
//! of an instruction are read as that instruction.
//!
//! [`line`] is exactly the listing's line at a place: the instruction where the image holds all of
//! its words, else the word or the byte there. [`write_listing`] puts the lines of a whole image.
//! Instructions are those of the MSP430x1xx Family User's Guide (SLAU049, the chapter on the 16-bit
//! RISC CPU); the notation and its faults are this project's own.
#![tactic(auto)]

mod assembler;
mod assembly;
mod bytes_law;
mod first_pass;
mod image_writer;
mod instruction;
mod item;
mod item_text;
mod law;
mod listing;
mod listing_writer;
mod names;
mod number;
mod operand;
mod scope;
mod space;
mod statement_bytes;

pub use assembler::assemble;
pub use bytes_law::{bytes_have_their_size, named_instructions_are_read};
pub use law::{instructions_stand_in_the_image, statements_stand_in_the_image};
pub use listing::{Listing, line};
pub use listing_writer::write_listing;
pub use names::Names;
pub use number::{address_of, word_of};
pub use scope::Scope;
pub use statement_bytes::{is_of_words, size_of};
