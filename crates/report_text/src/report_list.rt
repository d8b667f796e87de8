ghost use Rattle.std.specs.{Prelude.{◌≡◌, List, [], Some}, Result.result_map_both};
ghost use Rattle.device_types.specs.Report.{ReportFields};
ghost use Rattle.text_scan.specs.{LineFold.TakesLine, Reader.Reads};
ghost use Rattle.report_text.specs.ReportFile.{with_report, with_line, reports_of};

use crate::report::Report;
use crate::report_entry::read_report_entry;
use std::alloc::Global;
use std::marker::Model;
use text_scan::{LineReader, TextFault, WordFault, read_text};

// The reports of the lines so far.
#[derive(Debug, Drop)]
struct ReportList {
    reports: Vec<Report>,
}

impl Model for ReportList {
    ghost Value = { List ReportFields };

    ghost view = { λ list. list.reports.items };
}

/// The reports of a text in the order of its lines, or the first fault. How long a text may be is
/// its caller's affair.
pub fn read_reports(alloc: Global, text: &[u8]) -> Result<Vec<Report>, TextFault>
    ensures { Reads (result_map_both (λ reports. reports.items) (λ fault. fault) result)
        (reports_of text.now) }
{
    match read_text(alloc, ReportList::new(alloc), text) {
        Ok(list) => Ok(list.into_vec()),
        Err(fault) => Err(fault),
    }
}

impl<'a> LineReader<'a> for ReportList {
    ghost with_line = { with_line };

    #[tactic(auto, unfolding(crate::specs::ReportFile::with_line))]
    fn take(&mut self, alloc: Global, line: &'a [u8]) -> Result<(), WordFault> {
        match read_report_entry(alloc, line)? {
            None => Ok(()),
            Some(report) => self.add(report),
        }
    }
}

impl ReportList {
    fn new(alloc: Global) -> ReportList
        ensures { result ≡ [] }
    {
        ReportList {
            reports: Vec::new(alloc),
        }
    }

    // Puts a report after the others, where its output fits its bounds.
    fn add(&mut self, report: Report) -> Result<(), WordFault>
        ensures { TakesLine result self.new (with_report self.old (Some report)) }
    {
        let whole = report.with_output()?;
        if let Err(error) = self.reports.reserve(1) {
            return Err(WordFault::Memory(error));
        }
        self.reports.push_reserved(whole);
        Ok(())
    }

    fn into_vec(self) -> Vec<Report>
        ensures { result.items ≡ self }
    {
        self.reports
    }
}
