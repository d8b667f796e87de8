ghost use Rattle.std.specs.Prelude.{◌≡◌, List, None, option_map, IfErr, IfOk};
ghost use Rattle.desk_memory.specs.{Entry.{Entry as EntryFields, last_in}, Moving.{adoption_fault, entry_on_arrival, entries_on_arrival, came_by, is_behind_last, is_needed}};
ghost use Rattle.verifier_desk.specs.Serving.{Keeps};
ghost use Rattle.input_files.specs.CommandLine.{texts};
ghost use Rattle.desk_cli.specs.Adopt.{Adopts, IsAdoptAnswer, IsUntaken, adopt_names_of, first_refused};

use crate::answer_status::{noted_status, unopened_status};
use crate::founding::StatesEnd;
use crate::kind::states::States;
use crate::memory_files::MemoryFiles;
use crate::note_all::note_all;
use crate::numbered_entries::NumberedEntries;
use desk_memory::{Entry, EntryMemory, Home, last_of, owner_of};
use input_files::{BadFile, File, Inputs, Status};
use outside_edge::Shelf;
use std::alloc::{AllocError, Global};
use text_scan::{FaultAt, FaultKind};

// The lines and the memory that the arguments after `adopt` name.
fn adopt_names(arguments: &[String]) -> Option<(File<'_, States>, &str)>
    ensures { option_map (λ found. record {
      lines = found.0.name.now;
      memory = found.1.now;
    }) result ≡ adopt_names_of (texts arguments.now) }
{
    match arguments {
        [lines, memory] => Some((File::new(lines.as_str(), States), memory.as_str())),
        _ => None,
    }
}

/// Takes the devices into the memory of these arguments after `adopt`, by the lines by which they
/// moved there.
pub fn run_adopt<S: Shelf, M: EntryMemory + Drop, F: MemoryFiles<M>>(
    alloc: Global,
    arguments: &[String],
    shelf: &mut S,
    memories: &mut F,
) -> Status
    ensures { IsAdoptAnswer S.Shelf F.told M.Memory M.desk_of shelf.old shelf.new memories.old
        memories.new (adopt_names_of (texts arguments.now)) result }
{
    let Some((lines, memory)) = adopt_names(arguments) else {
        return Status::Words;
    };
    let lines = match lines.read::<StatesEnd, S>(alloc, shelf) {
        Ok(lines) => lines,
        Err(refusal) => return Status::of_refusal(refusal),
    };
    match memories.open(memory) {
        Ok(mut memory) => {
            let status = adopt_in(alloc, &lines, &mut memory);
            memories.close(memory);
            status
        }
        Err(fault) => unopened_status(fault),
    }
}

// The same in a memory that was opened.
fn adopt_in<M: EntryMemory>(alloc: Global, lines: &NumberedEntries, memory: &mut M) -> Status
    ensures { (entries : List EntryFields) × M.stands memory.old entries
        × (Keeps M.Memory memory.old entries
        → Adopts M.Memory lines.now result (M.desk_of memory.old) entries memory.old memory.new) }
{
    match arrivals_or_fault(alloc, lines, memory.desk(), memory.entries()) {
        Ok(arriving) => noted_status(note_all(arriving.as_slice(), memory)),
        Err(status) => status,
    }
}

// What lines add to a memory of this desk with these entries, or why it takes none of them.
fn arrivals_or_fault(
    alloc: Global,
    lines: &NumberedEntries,
    desk: &[u8],
    entries: &[Entry],
) -> Result<Vec<Entry>, Status>
    ensures taken { IfOk result (λ new.
        new.items ≡ entries_on_arrival entries.now lines.now.entries) }
    ensures faultless { IfOk result (λ new.
        first_refused desk.now entries.now lines.now ≡ None) }
    ensures refused { IfErr result (λ status.
        IsUntaken (first_refused desk.now entries.now lines.now) status) }
{
    if let Some(fault) = first_refused(desk, entries, lines) {
        return Err(Status::Bad(BadFile::States(fault)));
    }
    entries_on_arrival(alloc, entries, lines.entries()).map_err(|_| Status::Memory)
}

// The first of the lines that a desk does not take into a memory with these entries.
fn first_refused(desk: &[u8], entries: &[Entry], lines: &NumberedEntries) -> Option<FaultAt>
    ensures { result ≡ first_refused desk.now entries.now lines.now }
{
    for (place, line) in lines.entries().iter().enumerate() {
        if let Some(kind) = adoption_fault(desk, entries, line) {
            return Some(FaultAt {
                line: lines.number(place),
                kind,
            });
        }
    }
    None
}

// Why a desk does not take a line into a memory with these entries.
fn adoption_fault(desk: &[u8], entries: &[Entry], line: &Entry) -> Option<FaultKind>
    ensures { result ≡ adoption_fault desk.now entries.now line.now }
{
    if line.home().gone != Some(desk) {
        return Some(FaultKind::Place);
    }
    match owner_of(entries, line.mark()) {
        Some(owner) if owner != line.name() => return Some(FaultKind::Twice),
        _ => {}
    }
    match last_of(entries, line.name()) {
        Some(last) if is_behind(line, last) => Some(FaultKind::Order),
        _ => None,
    }
}

// Whether a device is here, or has moved on since, but did not come by this very move.
fn is_behind(line: &Entry, last: &Entry) -> bool
    ensures { result ≡ is_behind_last line.now last.now }
{
    let home = last.home();
    !came_by(line, last) && (home.gone.is_none() || home.moves >= line.home().moves)
}

// Whether a device with this last entry came by the move of a line.
fn came_by(line: &Entry, last: &Entry) -> bool
    ensures { result ≡ came_by line.now last.now }
{
    let home = last.home();
    home.gone.is_none() && home.moves == line.home().moves
}

// What lines add to these entries.
fn entries_on_arrival(
    alloc: Global,
    entries: &[Entry],
    lines: &[Entry],
) -> Result<Vec<Entry>, AllocError>
    ensures { IfOk result (λ new. new.items ≡ entries_on_arrival entries.now lines.now) }
{
    let mut new = Vec::new(alloc);
    for (place, line) in lines.iter().enumerate() {
        if is_needed(entries, line, &lines[place + 1..]) {
            new.push(entry_on_arrival(alloc, line)?)?;
        }
    }
    Ok(new)
}

// Whether a line before these later ones adds anything to these entries.
fn is_needed(entries: &[Entry], line: &Entry, later: &[Entry]) -> bool
    ensures { result ≡ is_needed entries.now line.now later.now }
{
    let has_come = match last_of(entries, line.name()) {
        Some(last) => came_by(line, last),
        None => false,
    };
    !has_come && (last_of(later, line.name()).is_none() || owner_of(entries, line.mark()).is_none())
}

// The entry of a device that has come.
fn entry_on_arrival(alloc: Global, line: &Entry) -> Result<Entry, AllocError>
    ensures { IfOk result (λ entry. entry ≡ entry_on_arrival line.now) }
{
    let home = Home {
        moves: line.home().moves,
        gone: None,
    };
    Entry::new(alloc, line.name(), line.mark(), line.state(), home)
}
