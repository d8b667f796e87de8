//! The types in which a device is told: the accesses, signals and records of its steps, its map and
//! regions, the bounds and flags that a report names, and the traits of those that watch it.
//!
//! A step of the device is one bus step. What it is about to do is a [`Signals`], what it did is a
//! [`BusRecord`]. The regions are those of VRASED (USENIX Security 2019) and APEX (USENIX Security
//! 2020): the key, the exclusive stack, the MAC, the metadata and the attestation ROM.
#![tactic(auto)]

mod access;
mod address;
mod bounds;
mod bus_master;
mod bus_record;
mod event;
mod kind;
mod law;
mod map;
mod region;
mod report_view;
mod rule;
mod signals;
mod trace_flag;
mod version;

pub use access::{Access, some_reads, some_writes};
pub use address::even;
pub use bounds::{Bounds, valid, valid_one};
pub use bus_master::BusMaster;
pub use bus_record::BusRecord;
pub use event::Event;
pub use kind::Kind;
pub use law::constants_are_of_the_map;
pub use map::{
    AUX_WORD, COUNTER, CR, DERIVED_KEY, DMA, ER_MAX, ER_MIN, EXEC_WORD, INNER_DIGEST, KEPT_COUNTER,
    KR, META, META_ONE, MR, OR_MAX, OR_MIN, PERIPHERALS, PINS, PROGRAM, RAM, RESET_VECTOR,
    ROM_BODY, ROM_ENTRY, ROM_EXIT, SERIAL, SERIAL_VECTOR, TIMER, TIMER_VECTOR, VECTORS, XS,
};
pub use region::{Region, some_touches, touches};
pub use report_view::ReportView;
pub use rule::Rule;
pub use signals::Signals;
pub use trace_flag::{NoFlag, TraceFlag};
pub use version::Version;
