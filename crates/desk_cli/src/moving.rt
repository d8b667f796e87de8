ghost use Rattle.std.specs.{Prelude.{◌≡◌, ◌≤◌, List, Ok, option_map, IfErr, IfOk}, Str.bytes_eq};
ghost use Rattle.desk_memory.specs.{Entry.{Entry as EntryFields, home_fields, last_in, with_entry}, Moving.{at_home, lines_at}};
ghost use Rattle.verifier_desk.specs.Serving.{Keeps};
ghost use Rattle.input_files.specs.CommandLine.{texts};
ghost use Rattle.desk_cli.specs.{Move.{IsMoveAnswer, KeepsAndPuts, Moves, Stays, departure, home_behind, move_names_of}, StateText.states_text};

use crate::answer_status::{unkept_status, unopened_status};
use crate::founding::is_name;
use crate::memory_files::MemoryFiles;
use crate::note_all::note_all;
use crate::states::put_text;
use desk_memory::{Entry, EntryMemory, Home, home_in, last_of};
use input_files::{Status, Unfit};
use outside_edge::Sink;
use std::alloc::{AllocError, Global};

// The names of a memory, a device and the desk that it goes to.
#[derive(Clone, Copy)]
struct MoveNames<'a> {
    memory: &'a str,
    device: &'a str,
    desk: &'a str,
}

// What the arguments after `move` name.
fn move_names(arguments: &[String]) -> Option<MoveNames<'_>>
    ensures { option_map (λ names. record {
      memory = names.memory.now;
      device = names.device.now;
      desk = names.desk.now;
    }) result ≡ move_names_of (texts arguments.now) }
{
    match arguments {
        [memory, device, desk] if is_name(device.as_str()) && is_name(desk.as_str()) => {
            Some(MoveNames {
                memory: memory.as_str(),
                device: device.as_str(),
                desk: desk.as_str(),
            })
        }
        _ => None,
    }
}

/// Has the memory of these arguments after `move` keep that a device is gone, and puts the lines by
/// which it moves.
pub fn run_move<M: EntryMemory + Drop, F: MemoryFiles<M>, W: Sink>(
    alloc: Global,
    arguments: &[String],
    memories: &mut F,
    sink: &mut W,
) -> Status
    ensures { IsMoveAnswer F.told M.Memory M.desk_of W.Sink memories.old memories.new sink.old
        sink.new (move_names_of (texts arguments.now)) result }
{
    let Some(names) = move_names(arguments) else {
        return Status::Words;
    };
    match memories.open(names.memory) {
        Ok(mut memory) => {
            let status = move_in(alloc, names, &mut memory, sink);
            memories.close(memory);
            status
        }
        Err(fault) => unopened_status(fault),
    }
}

// The same in a memory that was opened.
fn move_in<M: EntryMemory, W: Sink>(
    alloc: Global,
    names: MoveNames<'_>,
    memory: &mut M,
    sink: &mut W,
) -> Status
    ensures moves { (entries : List EntryFields) × M.stands memory.old entries
        × (Keeps M.Memory memory.old entries
        → Moves M.Memory W.Sink sink.old sink.new (record {
          memory = names.entry.memory.now;
          device = names.entry.device.now;
          desk = names.entry.desk.now;
        }) result (M.desk_of memory.old) entries memory.old memory.new) }
    ensures counted { W.faults sink.old ≤ W.faults sink.new }
{
    let (gone, lines) = match departure_with_lines(alloc, names, memory.desk(), memory.entries()) {
        Ok(leaving) => leaving,
        Err(status) => return status,
    };
    match gone {
        Some(gone) => keep_and_put(gone, lines.as_slice(), memory, sink),
        None => put_text(lines.as_slice(), sink),
    }
}

// Puts lines, once a memory keeps an entry.
fn keep_and_put<M: EntryMemory, W: Sink>(
    entry: Entry,
    lines: &[Entry],
    memory: &mut M,
    sink: &mut W,
) -> Status
    ensures keeps { (had : List EntryFields) → M.stands memory.old had
        → KeepsAndPuts M.Memory W.Sink memory.old memory.new sink.old sink.new
        (with_entry had entry) (states_text lines.now) result }
    ensures counted { W.faults sink.old ≤ W.faults sink.new }
{
    match note_all(&[entry], memory) {
        Ok(()) => put_text(lines, sink),
        Err(fault) => unkept_status(fault),
    }
}

// The entry by which a device leaves these, `None` where it is gone already, and the lines by which
// it moves; or why it cannot.
fn departure_with_lines(
    alloc: Global,
    names: MoveNames<'_>,
    desk: &[u8],
    entries: &[Entry],
) -> Result<(Option<Entry>, Vec<Entry>), Status>
    ensures leaves { IfOk result (λ leaving.
        departure desk.now names.entry.desk.now (last_in entries.now names.entry.device.now)
        ≡ Ok leaving.0) }
    ensures lines { IfOk result (λ leaving. leaving.1.items
        ≡ lines_at (home_behind leaving.0 (last_in entries.now names.entry.device.now))
        names.entry.device.now entries.now) }
    ensures stays { IfErr result (λ status. Stays (departure desk.now names.entry.desk.now
        (last_in entries.now names.entry.device.now)) status) }
{
    let device = names.device.as_bytes();
    let to = names.desk.as_bytes();
    let gone = departure(alloc, desk, to, last_of(entries, device))?;
    let home = match &gone {
        Some(gone) => gone.home(),
        None => home_in(entries, device),
    };
    let lines = lines_at(alloc, home, device, entries).map_err(|_| Status::Memory)?;
    Ok((gone, lines))
}

// The entry by which the device of a last entry goes from one desk to another, `None` where it is
// gone there already, or why it cannot.
fn departure(
    alloc: Global,
    from: &[u8],
    to: &[u8],
    last: Option<&Entry>,
) -> Result<Option<Entry>, Status>
    ensures leaves { IfOk result (λ gone.
        departure from.now to.now (option_map (λ entry. entry.now) last.entry) ≡ Ok gone) }
    ensures stays { IfErr result (λ status. Stays
        (departure from.now to.now (option_map (λ entry. entry.now) last.entry)) status) }
{
    let Some(last) = last else {
        return Err(Status::BadMemory(Unfit::NoDevice));
    };
    match last.home().gone {
        Some(desk) if desk == to => return Ok(None),
        Some(_) => return Err(Status::BadMemory(Unfit::Gone)),
        None => {}
    }
    if to == from {
        return Err(Status::BadMemory(Unfit::OwnDesk));
    }
    let Some(moves) = last.home().moves.checked_add(1) else {
        return Err(Status::BadMemory(Unfit::LastMove));
    };
    let home = Home {
        moves,
        gone: Some(to),
    };
    let gone = Entry::new(alloc, last.name(), last.mark(), last.state(), home).map_err(
        |_| Status::Memory,
    )?;
    Ok(Some(gone))
}

// The entries of the device of a name, each with this home.
fn lines_at(
    alloc: Global,
    home: Home<'_>,
    name: &[u8],
    entries: &[Entry],
) -> Result<Vec<Entry>, AllocError>
    ensures { IfOk result (λ lines. lines.items
        ≡ lines_at (home_fields home.entry) name.now entries.now) }
{
    let mut lines = Vec::new(alloc);
    for entry in entries {
        if is_named(entry, name) {
            lines.push(line_at(alloc, home, entry)?)?;
        }
    }
    Ok(lines)
}

// Whether an entry is of the device of a name.
fn is_named(entry: &Entry, name: &[u8]) -> bool
    ensures { result ≡ bytes_eq entry.now.name name.now }
{
    entry.name() == name
}

// An entry with this home.
fn line_at(alloc: Global, home: Home<'_>, entry: &Entry) -> Result<Entry, AllocError>
    ensures { IfOk result (λ line. line ≡ at_home (home_fields home.entry) entry.now) }
{
    Entry::new(alloc, entry.name(), entry.mark(), entry.state(), home)
}
