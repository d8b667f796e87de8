ghost use Rattle.std.specs.Prelude.{◌≤◌, IfOk};
ghost use Rattle.text_scan.specs.{Reader.{ReadsOn, ReadsWord, ReadsWordOn}, Word.words_of};
ghost use Rattle.report_text.specs.ReportLine.{count_of, flag_of, request_of, digest_of, bounds_of, output_in, output_of, report_of, some_report_of, no_report_of, report_by_keyword, report_line_of};

use crate::passed_line::pass_line;
use crate::report::Report;
use device_types::{Bounds, Version};
use std::alloc::Global;
use text_scan::{Bytes, FaultKind, WordFault, Words};

// The greatest number of a step, of steps, of a report or of a request.
const GREATEST: u64 = 4_294_967_295;

/// The report of a line, `None` where the line is of another kind.
#[tactic(auto, unfolding(crate::specs::ReportLine::report_line_of))]
pub fn read_report_entry(alloc: Global, line: &[u8]) -> Result<Option<Report>, WordFault>
    ensures { ReadsWord result (report_line_of (words_of line.now)) }
{
    let mut words = Words::new(line);
    let keyword = words.word()?;
    let report = read_kind(alloc, keyword, &mut words)?;
    words.end()?;
    Ok(report)
}

fn read_kind(
    alloc: Global,
    keyword: &[u8],
    words: &mut Words<'_>,
) -> Result<Option<Report>, WordFault>
    ensures { ReadsWordOn result words.new (report_by_keyword keyword.now words.old) }
{
    if keyword == b"report".as_slice() {
        return read_some(alloc, Version::One, words);
    }
    if keyword == b"report2".as_slice() {
        return read_some(alloc, Version::Two, words);
    }
    read_none(alloc, keyword, words)
}

#[tactic(auto, unfolding(crate::specs::ReportLine::some_report_of))]
fn read_some(
    alloc: Global,
    version: Version,
    words: &mut Words<'_>,
) -> Result<Option<Report>, WordFault>
    ensures { ReadsWordOn result words.new (some_report_of version words.old) }
{
    Ok(Some(read_report(alloc, version, words)?))
}

#[tactic(auto, unfolding(crate::specs::ReportLine::no_report_of))]
fn read_none(
    alloc: Global,
    keyword: &[u8],
    words: &mut Words<'_>,
) -> Result<Option<Report>, WordFault>
    ensures { ReadsWordOn result words.new (no_report_of keyword.now words.old) }
{
    pass_line(alloc, keyword, words)?;
    Ok(None)
}

/// What a report of a version tells, in the words behind its keyword.
#[tactic(auto, unfolding(crate::specs::ReportLine::report_of))]
pub fn read_report(
    alloc: Global,
    version: Version,
    words: &mut Words<'_>,
) -> Result<Report, WordFault>
    ensures { ReadsWordOn result words.new (report_of version words.old) }
{
    let step = read_count(words)?;
    let exec = read_flag(b"exec", words)?;
    let (aux, count) = read_request(version, words)?;
    let chal = read_digest(b"chal", words)?;
    let bounds = read_bounds(words)?;
    let output = read_output(alloc, words)?;
    let mac = read_digest(b"mac", words)?;
    Ok(Report {
        version,
        step,
        exec,
        aux,
        count,
        chal,
        bounds,
        output,
        mac,
    })
}

/// The number of a step, of steps, of a report or of a request.
pub fn read_count(words: &mut Words<'_>) -> Result<u64, FaultKind>
    ensures value { ReadsOn result words.new (count_of words.old) }
    ensures within { IfOk result (λ count. count ≤ 4294967295) }
{
    words.number(0, GREATEST)
}

/// A keyword, and a flag as 0 or 1.
#[tactic(auto, unfolding(crate::specs::ReportLine::flag_of))]
pub fn read_flag(keyword: &[u8], words: &mut Words<'_>) -> Result<bool, FaultKind>
    ensures { ReadsOn result words.new (flag_of keyword.now words.old) }
{
    words.keyword(keyword)?;
    Ok(words.number(0, 1)? == 1)
}

// `aux A count N`, in version 2 alone; in version 1 they count as 0.
#[tactic(auto, unfolding(crate::specs::ReportLine::request_of))]
fn read_request(version: Version, words: &mut Words<'_>) -> Result<(bool, u32), FaultKind>
    ensures { ReadsOn result words.new (request_of version words.old) }
{
    match version {
        Version::One => Ok((false, 0)),
        Version::Two => {
            let aux = read_flag(b"aux", words)?;
            words.keyword(b"count")?;
            let count = read_count(words)?;
            Ok((aux, count as u32))
        }
    }
}

#[tactic(auto, unfolding(crate::specs::ReportLine::digest_of))]
fn read_digest(keyword: &[u8], words: &mut Words<'_>) -> Result<[u8; 32], FaultKind>
    ensures { ReadsOn result words.new (digest_of keyword.now words.old) }
{
    words.keyword(keyword)?;
    words.block::<32>()
}

#[tactic(auto, unfolding(crate::specs::ReportLine::bounds_of))]
fn read_bounds(words: &mut Words<'_>) -> Result<Bounds, FaultKind>
    ensures { ReadsOn result words.new (bounds_of words.old) }
{
    words.keyword(b"er")?;
    let (er_min, er_max) = words.ends()?;
    words.keyword(b"or")?;
    let (or_min, or_max) = words.ends()?;
    Ok(Bounds {
        er_min,
        er_max,
        or_min,
        or_max,
    })
}

#[tactic(auto, unfolding(crate::specs::ReportLine::output_of))]
fn read_output(alloc: Global, words: &mut Words<'_>) -> Result<Option<Bytes>, WordFault>
    ensures { ReadsWordOn result words.new (output_of words.old) }
{
    words.keyword(b"data")?;
    let word = words.word()?;
    output_in(alloc, word)
}

// The bytes of an output, `None` for `-`.
fn output_in(alloc: Global, word: &[u8]) -> Result<Option<Bytes>, WordFault>
    ensures { ReadsWord result (output_in word.now) }
{
    match word {
        b"-" => Ok(None),
        _ => Ok(Some(Bytes::from_hex(alloc, word)?)),
    }
}
