ghost use Rattle.text_scan.specs.{Reader.ReadsWord, Word.words_of};
ghost use Rattle.report_text.specs.ReportFile.{report2_of};

use crate::report::Report;
use crate::report_entry::read_report;
use device_types::Version;
use std::alloc::Global;
use text_scan::{WordFault, Words};

/// The report of one line of version 2, or the line's first fault.
#[tactic(auto, unfolding(crate::specs::ReportFile::report2_of))]
pub fn read_report2(alloc: Global, line: &[u8]) -> Result<Report, WordFault>
    ensures { ReadsWord result (report2_of (words_of line.now)) }
{
    let mut words = Words::new(line);
    words.keyword(b"report2")?;
    let report = read_report(alloc, Version::Two, &mut words)?;
    words.end()?;
    Ok(report.with_output()?)
}
