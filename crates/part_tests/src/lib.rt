//! Tables for the parts and the monitors: vectors of the MSP430x1xx Family User's Guide (SLAU049),
//! of FIPS 180-4 and RFC 4231, and of the tables in `docs/`, each with a right answer that a
//! misreading of its rule would miss. The monitors are proposed steps of every kind at every edge
//! of the regions, and what stands between the program and the system meets every error.
//!
//! The contracts say that code and definitions agree. What stands here says that both are read as
//! they are meant: a row fails also where code and definition are changed together.
#![tactic(auto)]

#[cfg(test)]
mod alu;
#[cfg(test)]
mod arbiter;
#[cfg(test)]
mod atomicity_rule;
#[cfg(test)]
mod digest;
#[cfg(test)]
mod dma;
#[cfg(test)]
mod flag;
#[cfg(test)]
mod instruction;
#[cfg(test)]
mod key_rule;
#[cfg(test)]
mod mac;
#[cfg(test)]
mod memory;
#[cfg(test)]
mod outside;
#[cfg(test)]
mod pins;
#[cfg(test)]
mod processor;
#[cfg(test)]
mod proposal;
#[cfg(test)]
mod register;
#[cfg(test)]
mod rom;
#[cfg(test)]
mod serial;
#[cfg(test)]
mod timer;
