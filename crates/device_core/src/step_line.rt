ghost use Rattle.std.specs.Prelude.{◌≡◌, None};
ghost use Rattle.device_trace.specs.Text.{byte_sent_in};
ghost use Rattle.device_core.specs.Silence.{byte_in_line, rule_in_line, report_in_line, denied_in_line};

use crate::record::byte_sent_in;
use device_types::{BusRecord, ReportView, Rule};

/// The line of a step, which says what the step did that can be seen from outside.
#[derive(Drop)]
pub enum StepLine<'a> {
    /// It sent this byte by the serial port.
    Sent(u8),
    /// It broke this rule, and the device was reset.
    Reset(Rule),
    /// It finished a call of the attestation ROM, which left this report.
    Report(ReportView<'a>),
    /// It finished a call that does not attest, with this decision.
    Denied(u16),
}

/// The line of a step with this record, which finished no call.
pub fn line_of_record<'a>(entry: &BusRecord) -> Option<StepLine<'a>>
    ensures byte { byte_in_line result ≡ byte_sent_in entry.now }
    ensures rule { rule_in_line result ≡ entry.now.reset }
    ensures report { report_in_line result ≡ None }
    ensures denied { denied_in_line result ≡ None }
{
    match (entry.reset, byte_sent_in(entry)) {
        (Some(rule), _) => Some(StepLine::Reset(rule)),
        (None, Some(byte)) => Some(StepLine::Sent(byte)),
        (None, None) => None,
    }
}
