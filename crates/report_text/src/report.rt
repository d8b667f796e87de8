ghost use Rattle.std.specs.Prelude.{◌≡◌};
ghost use Rattle.device_types.specs.Report.{ReportFields, fields_of};
ghost use Rattle.report_text.specs.ReportFile.{output_fits, with_output};

use device_types::{Bounds, ReportView, Version};
use report_verifier::valid_for;
use std::marker::Model;
use text_scan::{Bytes, FaultKind};

/// An attestation report, as read from a file.
#[derive(Debug, Drop)]
pub struct Report {
    pub version: Version,
    /// The step that finished the call, below 2^32.
    pub step: u64,
    /// The EXEC flag.
    pub exec: bool,
    /// The second flag, false in version 1.
    pub aux: bool,
    /// The counter of the request, 0 in version 1.
    pub count: u32,
    pub chal: [u8; 32],
    pub bounds: Bounds,
    /// The bytes of the output region, where the bounds are valid.
    pub output: Option<Bytes>,
    pub mac: [u8; 32],
}

impl Model for Report {
    ghost Value = { ReportFields };

    ghost view = { λ report. record {
      version = report.version;
      step = report.step;
      exec = report.exec;
      aux = report.aux;
      count = report.count;
      chal = report.chal;
      bounds = report.bounds;
      output = report.output;
      mac = report.mac;
    } };
}

impl Report {
    /// The report as a view, as the device gives it.
    pub fn view(&self) -> ReportView<'_>
        ensures { fields_of result ≡ self.now }
    {
        ReportView {
            version: self.version,
            step: self.step,
            exec: self.exec,
            aux: self.aux,
            count: self.count,
            chal: self.chal,
            bounds: self.bounds,
            output: match &self.output {
                None => None,
                Some(bytes) => Some(bytes.as_slice()),
            },
            mac: self.mac,
        }
    }

    // Whether the report has the bytes of its output region where its bounds are valid, and else
    // none.
    fn output_fits(&self) -> bool
        ensures { result ≡ output_fits self.now.version self.now.bounds self.now.output }
    {
        let is_valid = valid_for(self.version, &self.bounds);
        match &self.output {
            None => !is_valid,
            Some(bytes) => {
                let end = usize::from(self.bounds.or_max) + 2;
                is_valid
                    && bytes.as_slice().len() == end.saturating_sub(usize::from(self.bounds.or_min))
            }
        }
    }

    /// The report, where its output fits its bounds, else `Output`.
    pub(crate) fn with_output(self) -> Result<Report, FaultKind>
        ensures { result ≡ with_output self }
    {
        if self.output_fits() {
            Ok(self)
        } else {
            Err(FaultKind::Output)
        }
    }
}
