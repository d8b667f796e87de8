//! The peripherals on the bus, and their registers: timer, pins of port 1, serial port, DMA engine.
//!
//! Registers are 16-bit words at even addresses. An access reads or writes a whole word, whose
//! address has bit 0 cleared, or one byte of it, the low byte at the even address, as the
//! MSP430x1xx Family User's Guide (SLAU049) has it for words in memory. A [`Register`] holds, byte
//! by byte, what was last written to it.
//!
//! The peripherals are the device's own; what the DMA engine may touch is VRASED's concern (USENIX
//! Security 2019). Each call says: for every list of events that the value stood for, it now stands
//! for that list with this event on it, and what it answers is what the definitions say of that
//! list.
#![tactic(auto)]

mod activity;
mod distance;
mod dma;
mod order;
mod part;
mod pins;
mod register;
mod sent_byte;
mod serial;
mod taken_byte;
mod timer;

pub use distance::transfer_goes_by_distance;
pub use dma::Dma;
pub use order::bytes_keep_order;
pub use part::{covers_byte, part_of_word, register_place};
pub use pins::Pins;
pub use register::Register;
pub use sent_byte::byte_sent;
pub use serial::Serial;
pub use taken_byte::takes_byte;
pub use timer::Timer;
