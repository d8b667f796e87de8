//! The files that show a play step by step.
//!
//! A [`TraceLine`] is the line of one bus step, printed and read. The audit says of the lines of a
//! trace file whether each names the rule that its step breaks, and the EXEC flag after it. The
//! rules are those of VRASED (USENIX Security 2019) and the flag is that of APEX (USENIX Security
//! 2020); they are decided here a second time, against the same definitions, by code that shares
//! with the device's monitors and its flag no more than which words are instructions
//! (`msp_decode`). A [`Wave`] is the waveform: a value change dump (IEEE 1364-2005, clause 18) of
//! the trace lines, registers, flags and ports, for GTKWave and other viewers, in which one unit of
//! time is one bus step. Laws say that the lines of a play are clean, that they are the same
//! without the key, and that lines and waves are read back.
#![tactic(auto)]

mod audit;
mod audit_law;
mod audit_line;
mod audited;
mod change;
mod file_audit;
mod header;
mod line_law;
mod line_reader;
mod offence;
mod play_law;
mod ports;
mod printed_line;
mod rule;
mod run;
mod sample;
mod shown_value;
mod span;
mod state;
mod trace_line;
mod wave;
mod wave_law;
mod wire;

pub use audit::Audit;
pub use audit_law::clean_lines_have_no_offence;
pub use audit_line::print_audited;
pub use audited::Audited;
pub use file_audit::audit_file;
pub use line_law::{trace_file_reads_back, trace_line_reads_back};
pub use line_reader::read_line;
pub use offence::Offence;
pub use play_law::{lines_are_keyless, second_key_gives_same_lines, trace_is_clean};
pub use ports::Ports;
pub use printed_line::{print_line, rule_word};
pub use sample::Sample;
pub use shown_value::wire_value;
pub use state::State;
pub use trace_line::TraceLine;
pub use wave::Wave;
pub use wave_law::wave_reads_back;
pub use wire::{LINE_WIRES, OTHER_WIRES, Wire};
