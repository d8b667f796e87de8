//! The processor: its 27 instructions, every addressing mode, and the interrupt entry.
//!
//! The behaviour is that of the MSP430x1xx Family User's Guide (SLAU049, the chapter on the 16-bit
//! RISC CPU); the order of the accesses is this project's own. [`Cpu`] is a master of the bus and
//! makes one access in a step. It stands for the registers at which the current instruction or
//! interrupt entry began and the values of its accesses so far: what it asks for, and the registers
//! that it leaves, are computed from these by the definitions alone.
#![tactic(auto)]

mod access;
mod cpu;
mod instruction;
mod operand;
mod outcome;
mod phase;
mod register;

pub use cpu::Cpu;
