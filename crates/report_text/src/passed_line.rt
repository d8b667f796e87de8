ghost use Rattle.std.specs.Prelude.{◌≡◌};
ghost use Rattle.text_scan.specs.Reader.{ReadsWordOn, value_as};
ghost use Rattle.report_text.specs.ReportLine.{fields_by, fields_of, other_line_of};

use crate::field::Field;
use std::alloc::Global;
use text_scan::{FaultKind, WordFault, Words};

/// Passes a line that is no report, in its form.
pub fn pass_line(alloc: Global, keyword: &[u8], words: &mut Words<'_>) -> Result<(), WordFault>
    ensures { ReadsWordOn result words.new (other_line_of keyword.now words.old) }
{
    pass_fields(alloc, fields_by(keyword)?, words)
}

// The fields behind a keyword.
fn fields_by(keyword: &[u8]) -> Result<&'static [Field], FaultKind>
    ensures { value_as (λ fields. fields.now) result ≡ fields_by keyword.now }
{
    if keyword == b"tx".as_slice() {
        return Ok(&[Field::Count, Field::Byte]);
    }
    if keyword == b"reset".as_slice() {
        return Ok(&[Field::Count, Field::Rule]);
    }
    if keyword == b"denied".as_slice() {
        return Ok(&[Field::Count, Field::Denial]);
    }
    if keyword == b"verdict".as_slice() {
        return Ok(&[Field::Count, Field::Verdict]);
    }
    if keyword == b"collision".as_slice() {
        return Ok(&[Field::Bytes, Field::Bytes]);
    }
    if keyword == b"end".as_slice() {
        return Ok(&[Field::Count, Field::Pc, Field::Exec]);
    }
    Err(FaultKind::Word)
}

fn pass_fields(alloc: Global, fields: &[Field], words: &mut Words<'_>) -> Result<(), WordFault>
    ensures { ReadsWordOn result words.new (fields_of fields.now words.old) }
{
    for field in fields {
        field.pass(alloc, words)?;
    }
    Ok(())
}
