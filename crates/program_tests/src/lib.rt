//! Tests of each program's `run`, over files, byte sinks, sources and memories in memory: each
//! command once, where one call of the outside fails and where none can; and a second flag and a
//! digest that no program has.
//!
//! The contracts say which bytes are put, and `tools/check-program` tries the proved programs on
//! the cases of `conformance/` and beside models in another language. What stands here is what no
//! call of a program shows, and one telling case of what it does.
#![tactic(auto)]

#[cfg(test)]
mod attested_device;
#[cfg(test)]
mod debug;
#[cfg(test)]
mod desk;
#[cfg(test)]
mod device;
#[cfg(test)]
mod inputs;
