//! The lines that the program prints of a play, of requests and of verdicts, and reports read from
//! such lines.
//!
//! Each print call puts exactly one line of the text into any byte sink, and takes no memory; after
//! a failure the sink took a prefix of the line. [`read_reports`] gives the reports of a file in
//! order, of both versions, or its first fault; lines of the other kinds are passed over in their
//! form. [`read_report2`] reads one line of version 2.
#![tactic(auto)]

mod collision_line;
mod field;
mod law;
mod passed_line;
mod printed_digits;
mod printed_line;
mod report;
mod report2;
mod report_entry;
mod report_line;
mod report_list;
mod request_line;
mod verdict_line;

pub use collision_line::print_collision;
pub use law::{report_line_reads_back, verdict_lines_are_passed_over};
pub use printed_digits::print_digits;
pub use printed_line::{print_denied, print_end, print_place, print_reset, print_sent};
pub use report::Report;
pub use report_line::print_report;
pub use report_list::read_reports;
pub use report2::read_report2;
pub use request_line::{add_request, print_request};
pub use verdict_line::print_verdict;
