ghost use Rattle.std.specs.Prelude.{◌≡◌, ◌≤◌, ◌+◌, ◌++◌, ◌∷◌, [], length, option_map, codes};
ghost use Rattle.hex.specs.Hex.{encode_lower};
ghost use Rattle.outside_edge.specs.Sink.{Puts, CountsFaults};
ghost use Rattle.device_types.specs.Report.{fields_of};
ghost use Rattle.printed_lines.specs.Line.{output_piece, report_keyword, version_pieces, report_head, report_line, with_pieces, line_of};

use crate::printed_digits::print_digits;
use device_types::{ReportView, Version};
use line_buffer::LineBuffer;
use outside_edge::{Failed, Sink, put_all};

/// Puts the line of a report: `report S exec E chal H64 er H4 H4 or H4 H4 data D mac H64`, and from
/// version 2 on `report2 S exec E aux A count N chal ..`, which goes on likewise.
pub fn print_report<W: Sink>(view: &ReportView<'_>, sink: &mut W) -> Result<(), Failed>
    ensures puts { Puts W.stands sink.old sink.new (report_line (fields_of view.now)) result }
    ensures counts { CountsFaults W.faults sink.old sink.new result }
{
    print_head_and_output(view, sink)?;
    print_tail(&view.mac, sink)
}

fn print_head_and_output<W: Sink>(view: &ReportView<'_>, sink: &mut W) -> Result<(), Failed>
    ensures puts { Puts W.stands sink.old sink.new
        (with_pieces (report_keyword view.now.version) (report_head (fields_of view.now))
        ++ 32 ∷ output_piece (fields_of view.now).output) result }
    ensures counts { CountsFaults W.faults sink.old sink.new result }
{
    print_head(view, sink)?;
    print_output(view.output, sink)
}

// All before the output.
fn print_head<W: Sink>(view: &ReportView<'_>, sink: &mut W) -> Result<(), Failed>
    ensures puts { Puts W.stands sink.old sink.new
        (with_pieces (report_keyword view.now.version) (report_head (fields_of view.now)))
        result }
    ensures counts { CountsFaults W.faults sink.old sink.new result }
{
    let mut line = LineBuffer::new();
    line.push(keyword(view.version));
    line.add_decimal(view.step);
    line.add_text(b"exec");
    line.add_flag(view.exec);
    add_version(&mut line, view.version, view.aux, view.count);
    line.add_text(b"chal");
    line.add_digits(&view.chal);
    line.add_text(b"er");
    line.add_word(view.bounds.er_min);
    line.add_word(view.bounds.er_max);
    line.add_text(b"or");
    line.add_word(view.bounds.or_min);
    line.add_word(view.bounds.or_max);
    line.add_text(b"data");
    put_all(sink, line.as_slice())
}

// The keyword of a report.
fn keyword(version: Version) -> &'static [u8]
    ensures text { result.now ≡ report_keyword version }
    ensures len { length result.now ≤ 7 }
{
    match version {
        Version::One => b"report",
        Version::Two => b"report2",
    }
}

// What is new in version 2: the second flag and the counter.
fn add_version(line: &mut LineBuffer, version: Version, aux: bool, count: u32)
    requires { length line.old ≤ 60 }
    ensures text { line.new ≡ with_pieces line.old (version_pieces version aux count) }
    ensures len { length line.new ≤ length line.old + 33 }
{
    match version {
        Version::One => {}
        Version::Two => {
            line.add_text(b"aux");
            line.add_flag(aux);
            line.add_text(b"count");
            line.add_decimal(u64::from(count));
        }
    }
}

// The output, `-` where the bounds are invalid.
fn print_output<W: Sink>(output: Option<&[u8]>, sink: &mut W) -> Result<(), Failed>
    ensures puts { Puts W.stands sink.old sink.new
        (32 ∷ output_piece (option_map (λ bytes. bytes.now) output.entry)) result }
    ensures counts { CountsFaults W.faults sink.old sink.new result }
{
    match output {
        Some(bytes) => print_digits(b" ", bytes, sink),
        None => put_all(sink, b" -"),
    }
}

// All after the output.
fn print_tail<W: Sink>(mac: &[u8; 32], sink: &mut W) -> Result<(), Failed>
    ensures puts { Puts W.stands sink.old sink.new
        (line_of [] (codes "mac" ∷ encode_lower mac.now ∷ [])) result }
    ensures counts { CountsFaults W.faults sink.old sink.new result }
{
    let mut line = LineBuffer::new();
    line.add_text(b"mac");
    line.add_digits(mac);
    line.push(b"\n");
    put_all(sink, line.as_slice())
}
