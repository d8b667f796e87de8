ghost use Rattle.std.specs.Prelude.{◌≡◌, option_map};
ghost use Rattle.text_scan.specs.{Reader.{ReadsOn, ReadsWord, value_as}, Word.words_of};
ghost use Rattle.desk_memory.specs.Entry.{home_fields};
ghost use Rattle.desk_cli.specs.StateFile.{entry_of, home_said, last_of, last_with, moves_of, name_of, number_in, outstanding_of, state_of};

use crate::line_form::LineForm;
use desk_database::next_answer;
use desk_memory::{Answer, DeviceState, Entry, Home, MARK};
use std::alloc::Global;
use text_scan::{FaultKind, WordFault, Words, decimal};
use verifier_desk::check_name;

/// The entry of a line of any form.
#[tactic(auto, unfolding(crate::specs::StateFile::entry_of))]
pub fn read_entry(alloc: Global, line: &[u8]) -> Result<Entry, WordFault>
    ensures { ReadsWord result (entry_of (words_of line.now)) }
{
    let mut words = Words::new(line);
    let form = words.value::<LineForm>()?;
    let name = read_name(&mut words)?;
    let home = read_home(form, &mut words)?;
    words.keyword(b"key")?;
    let mark = words.block::<MARK>()?;
    let state = read_state(&mut words)?;
    words.end()?;
    Entry::new(alloc, name, &mark, state, home).map_err(WordFault::Memory)
}

// The name of a device or of a desk.
#[tactic(auto, unfolding(crate::specs::StateFile::name_of))]
fn read_name<'a>(words: &mut Words<'a>) -> Result<&'a [u8], FaultKind>
    ensures { ReadsOn (value_as (λ name. name.now) result) words.new (name_of words.old) }
{
    let name = words.word()?;
    check_name(name)?;
    Ok(name)
}

// What a line of this form says of its device's home.
#[tactic(auto, unfolding(crate::specs::StateFile::home_said))]
fn read_home<'a>(form: LineForm, words: &mut Words<'a>) -> Result<Home<'a>, FaultKind>
    ensures { ReadsOn (value_as home_fields result) words.new (home_said form words.old) }
{
    match form {
        LineForm::VersionOne => Ok(Home {
            moves: 0,
            gone: None,
        }),
        LineForm::Here => read_moves(None, words),
        LineForm::Gone => {
            words.keyword(b"to")?;
            let desk = read_name(words)?;
            read_moves(Some(desk), words)
        }
    }
}

// How often a device has moved that is gone to this desk, or is here.
#[tactic(auto, unfolding(crate::specs::StateFile::moves_of))]
fn read_moves<'a>(gone: Option<&'a [u8]>, words: &mut Words<'a>) -> Result<Home<'a>, FaultKind>
    ensures { ReadsOn (value_as home_fields result) words.new
        (moves_of (option_map (λ desk. desk.now) gone.entry) words.old) }
{
    words.keyword(b"moves")?;
    let moves = words.number(0, u64::from(u32::MAX))? as u32;
    Ok(Home { moves, gone })
}

#[tactic(auto, unfolding(crate::specs::StateFile::state_of))]
fn read_state(words: &mut Words<'_>) -> Result<DeviceState, FaultKind>
    ensures { ReadsOn result words.new (state_of words.old) }
{
    words.keyword(b"count")?;
    let count = words.number(0, u64::from(u32::MAX))? as u32;
    let outstanding = read_outstanding(words, count)?;
    let last = read_last(words)?;
    Ok(DeviceState {
        count,
        outstanding,
        last,
    })
}

// The outstanding request, which is one of so many.
#[tactic(auto, unfolding(crate::specs::StateFile::outstanding_of))]
fn read_outstanding(words: &mut Words<'_>, count: u32) -> Result<Option<u32>, FaultKind>
    ensures { ReadsOn result words.new (outstanding_of count words.old) }
{
    words.keyword(b"outstanding")?;
    number_in(words.word()?, count)
}

// The last number of a line, and its answer.
#[tactic(auto, unfolding(crate::specs::StateFile::last_of, crate::specs::StateFile::last_with))]
fn read_last(words: &mut Words<'_>) -> Result<Option<(u32, Answer)>, FaultKind>
    ensures { ReadsOn result words.new (last_of words.old) }
{
    words.keyword(b"last")?;
    match number_in(words.word()?, u32::MAX)? {
        None => Ok(None),
        Some(number) => Ok(Some((number, next_answer(words)?))),
    }
}

// A decimal of at most so much, or `none`.
#[tactic(auto, unfolding(crate::specs::StateFile::number_in))]
fn number_in(word: &[u8], most: u32) -> Result<Option<u32>, FaultKind>
    ensures { result ≡ number_in most word.now }
{
    if word == b"none".as_slice() {
        return Ok(None);
    }
    Ok(Some(decimal(word, 0, u64::from(most))? as u32))
}
