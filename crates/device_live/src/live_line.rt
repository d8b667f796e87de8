ghost use Rattle.std.specs.Prelude.{◌≡◌, ◌≤◌, Ok, Err, IfOk, IfErr};
ghost use Rattle.text_scan.specs.{Reader.{ReadsOn, ReadsWord, ReadsWordOn, value_as}, Word.words_of};
ghost use Rattle.device_live.specs.{LiveLine.{happens_of, line_by_keyword, live_line_of, memory_of, run_of}, Living.{IsWithin, line_in}};

use play_script::{Happening, read_happening};
use std::alloc::Global;
use text_scan::{FaultKind, WordFault, Words, decimal, hex_word, long_decimal};

/// The most steps that a device makes.
pub const MOST_STEPS: u64 = 1 << 48;

/// The most bytes that are shown at once.
pub const MOST_SHOWN: u64 = 2_048;

/// What a line says to a device that lives.
#[derive(Debug, Drop)]
pub enum LiveLine {
    /// This comes in a step.
    Happens(u64, Happening),
    /// Go on until so many steps were made.
    Run(u64),
    /// Show the registers.
    Registers,
    /// Show so many bytes from an address on.
    Memory(u16, u64),
}

/// What a line says, or its first fault.
#[tactic(auto, unfolding(crate::specs::LiveLine::live_line_of))]
pub fn read_live_line(alloc: Global, line: &[u8]) -> Result<LiveLine, WordFault>
    ensures reads { ReadsWord (value_as line_in result) (live_line_of (words_of line.now)) }
    ensures within { IfOk result IsWithin }
{
    let mut words = Words::new(line);
    let keyword = words.word()?;
    let said = read_said(alloc, keyword, &mut words)?;
    words.end()?;
    Ok(said)
}

// What the words behind a keyword say.
fn read_said(alloc: Global, keyword: &[u8], words: &mut Words<'_>) -> Result<LiveLine, WordFault>
    ensures reads { ReadsWordOn (value_as line_in result) words.new
        (line_by_keyword keyword.now words.old) }
    ensures within { IfOk result IsWithin }
{
    if keyword == b"at".as_slice() {
        return read_happens(alloc, words);
    }
    if keyword == b"run".as_slice() {
        return Ok(read_run(words)?);
    }
    if keyword == b"registers".as_slice() {
        return Ok(LiveLine::Registers);
    }
    if keyword == b"memory".as_slice() {
        return Ok(read_memory(words)?);
    }
    Err(WordFault::Kind(FaultKind::Word))
}

#[tactic(auto, unfolding(crate::specs::LiveLine::happens_of))]
fn read_happens(alloc: Global, words: &mut Words<'_>) -> Result<LiveLine, WordFault>
    ensures reads { ReadsWordOn (value_as line_in result) words.new (happens_of words.old) }
    ensures within { IfOk result IsWithin }
{
    let step = long_decimal(words.word()?, 0, MOST_STEPS - 1)?;
    Ok(LiveLine::Happens(step, read_happening(alloc, words)?))
}

#[tactic(auto, unfolding(crate::specs::LiveLine::run_of))]
fn read_run(words: &mut Words<'_>) -> Result<LiveLine, FaultKind>
    ensures reads { ReadsOn (value_as line_in result) words.new (run_of words.old) }
    ensures within { IfOk result IsWithin }
{
    Ok(LiveLine::Run(long_decimal(words.word()?, 0, MOST_STEPS)?))
}

#[tactic(auto, unfolding(crate::specs::LiveLine::memory_of))]
fn read_memory(words: &mut Words<'_>) -> Result<LiveLine, FaultKind>
    ensures reads { ReadsOn (value_as line_in result) words.new (memory_of words.old) }
    ensures within { IfOk result IsWithin }
{
    let place = hex_word(words.word()?)?;
    let count = decimal(words.word()?, 1, MOST_SHOWN)?;
    Ok(LiveLine::Memory(place, count))
}
