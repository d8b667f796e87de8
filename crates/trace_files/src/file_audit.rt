ghost use Rattle.std.specs.Prelude.{◌≡◌, ◌+◌, ◌<◌, ◌^◌, List, length};
ghost use Rattle.text_scan.specs.{Reader.in_line, Word.words_of};
ghost use Rattle.trace_files.specs.{LineGrammar.trace_line_of, declared.trace_line.TraceLine.TraceLine, AuditText.{AuditStandsFor, SaysMore, audit_of, audit_of_lines}, Offence.or_first};

use crate::audit::Audit;
use crate::audited::Audited;
use crate::line_reader::read_line;
use crate::offence::Offence;
use text_scan::{FaultAt, Lines};

/// Audits a trace file, or gives its first fault. It goes over the lines once, and keeps none.
pub fn audit_file(text: &[u8]) -> Result<Audited, FaultAt>
    ensures { result ≡ audit_of text.now }
{
    let mut audit = Audit::new();
    let mut audited = Audited {
        lines: 0,
        offence: None,
    };
    for (number, line) in Lines::new(text) {
        if line.is_empty() {
            continue;
        }
        audited = see_text(&mut audit, audited, number, line)?;
    }
    Ok(audited)
}

// What is said with one further line, the text of which stands in the line of this number.
#[tactic(auto, unfolding(crate::specs::Offence::first_offence))]
fn see_text(
    audit: &mut Audit,
    before: Audited,
    number: u64,
    text: &[u8],
) -> Result<Audited, FaultAt>
    ensures { (lines : List TraceLine)
        → AuditStandsFor audit.old lines
        → before ≡ audit_of_lines lines
        → SaysMore audit.new lines result
        (in_line number (trace_line_of (length lines) (words_of text.now))) }
{
    match read_line(text, before.lines) {
        Ok(line) => Ok(with_line(before, audit.see(&line))),
        Err(kind) => Err(FaultAt { line: number, kind }),
    }
}

// What is said with one further line, in which this is wrong.
fn with_line(before: Audited, offence: Option<Offence>) -> Audited
    requires { before.lines < 2 ^ 63 }
    ensures lines { result.lines ≡ before.lines + 1 }
    ensures offence { result.offence ≡ or_first before.offence before.lines offence }
{
    Audited {
        lines: before.lines + 1,
        offence: or_first(before.offence, before.lines, offence),
    }
}

// The first offence, where a line may have one after all others.
fn or_first(
    first: Option<(u64, Offence)>,
    step: u64,
    offence: Option<Offence>,
) -> Option<(u64, Offence)>
    ensures { result ≡ or_first first step offence }
{
    match (first, offence) {
        (Some(first), _) => Some(first),
        (None, Some(offence)) => Some((step, offence)),
        (None, None) => None,
    }
}
