use input_files::{BadFile, Kind, TEXT_LIMIT};
use report_text::{Report, read_reports};
use std::alloc::Global;
use text_scan::{FaultAt, TextFault};

/// Attestation reports, one a line.
#[derive(Clone, Copy, Debug)]
pub struct Reports;

impl Kind for Reports {
    ghost use Rattle.std.specs.Prelude.{List};
    ghost use Rattle.device_types.specs.Report.{ReportFields};
    ghost use Rattle.device_cli.specs.FileKind.{reports_kind};

    type Value = Vec<Report>;

    ghost Meaning = { List ReportFields };

    ghost meaning = { λ reports. reports.items };

    ghost kind = { reports_kind };

    fn limit() -> usize {
        TEXT_LIMIT
    }

    fn parse(alloc: Global, bytes: Vec<u8>) -> Result<Vec<Report>, TextFault> {
        read_reports(alloc, &bytes)
    }

    fn refusal(fault: FaultAt) -> BadFile {
        BadFile::Reports(fault)
    }
}
