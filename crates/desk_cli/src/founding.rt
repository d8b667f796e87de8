ghost use Rattle.std.specs.Prelude.{◌≡◌, option_map};
ghost use Rattle.desk_memory.specs.Entry.{Entry as EntryFields};
ghost use Rattle.input_files.specs.CommandLine.{texts};
ghost use Rattle.desk_cli.specs.Founding.{FoundsIf, IsFoundAnswer, IsRememberAnswer, found_names_of, is_name, remember_names_of};

use crate::answer_status::{noted_status, unopened_status};
use crate::kind::states::States;
use crate::memory_files::MemoryFiles;
use crate::note_all::note_all;
use desk_memory::{Entry, EntryMemory};
use input_files::{File, Inputs, RowEnd, Status};
use outside_edge::Shelf;
use std::alloc::Global;
use verifier_desk::check_name;

/// The row of a text of states ends with what it says.
pub struct StatesEnd;

impl RowEnd for StatesEnd {
    ghost use Rattle.desk_cli.specs.StateFile.{NumberedEntries};

    ghost Outcome = { NumberedEntries };
}

/// Whether a desk or a device can have this name.
pub fn is_name(word: &str) -> bool
    ensures { result ≡ is_name word.now }
{
    check_name(word.as_bytes()).is_ok()
}

// The names of a new memory and of its desk.
#[derive(Clone, Copy)]
struct FoundNames<'a> {
    memory: &'a str,
    desk: &'a str,
}

// The memory and the desk that the arguments after `found` name.
fn found_names(arguments: &[String]) -> Option<FoundNames<'_>>
    ensures { option_map (λ names. record {
      memory = names.memory.now;
      desk = names.desk.now;
    }) result ≡ found_names_of (texts arguments.now) }
{
    match arguments {
        [memory, desk] if is_name(desk.as_str()) => Some(FoundNames {
            memory: memory.as_str(),
            desk: desk.as_str(),
        }),
        _ => None,
    }
}

// The text, the memory and the desk that the arguments after `remember` name.
fn remember_names(arguments: &[String]) -> Option<(File<'_, States>, FoundNames<'_>)>
    ensures { option_map (λ names. record {
      states = names.0.name.now;
      found = record { memory = names.1.memory.now; desk = names.1.desk.now };
    }) result ≡ remember_names_of (texts arguments.now) }
{
    match arguments {
        [states, behind @ ..] => {
            let names = found_names(behind)?;
            Some((File::new(states.as_str(), States), names))
        }
        _ => None,
    }
}

/// Makes the memory of these arguments after `found`, without a device.
pub fn run_found<M: EntryMemory + Drop, F: MemoryFiles<M>>(
    arguments: &[String],
    memories: &mut F,
) -> Status
    ensures { IsFoundAnswer F.told M.Memory M.desk_of memories.old memories.new
        (found_names_of (texts arguments.now)) result }
{
    match found_names(arguments) {
        Some(names) => found_with(names, &[], memories),
        None => Status::Words,
    }
}

/// Makes the memory of these arguments after `remember`, with the entries of a text of states.
pub fn run_remember<S: Shelf, M: EntryMemory + Drop, F: MemoryFiles<M>>(
    alloc: Global,
    arguments: &[String],
    shelf: &mut S,
    memories: &mut F,
) -> Status
    ensures { IsRememberAnswer S.Shelf F.told M.Memory M.desk_of shelf.old shelf.new memories.old
        memories.new (remember_names_of (texts arguments.now)) result }
{
    let Some((states, names)) = remember_names(arguments) else {
        return Status::Words;
    };
    match states.read::<StatesEnd, S>(alloc, shelf) {
        Ok(states) => found_with(names, states.entries(), memories),
        Err(refusal) => Status::of_refusal(refusal),
    }
}

// Makes a memory of a desk with these entries.
fn found_with<M: EntryMemory + Drop, F: MemoryFiles<M>>(
    names: FoundNames<'_>,
    entries: &[Entry],
    memories: &mut F,
) -> Status
    ensures { FoundsIf F.told M.Memory M.desk_of memories.old memories.new
        (record { memory = names.entry.memory.now; desk = names.entry.desk.now }) entries.now
        result }
{
    match memories.make(names.memory, names.desk.as_bytes()) {
        Ok(mut memory) => {
            let noted = note_all(entries, &mut memory);
            memories.close(memory);
            noted_status(noted)
        }
        Err(fault) => unopened_status(fault),
    }
}
