ghost use Rattle.std.specs.Prelude.{◌≡◌, ◌≤◌, [], List, option_map, IfOk};
ghost use Rattle.mem_map.specs.Image.{byte_in};
ghost use Rattle.desk_memory.specs.{Entry.Entry, declared.no_memory.NoMemory.NoMemory as Forgetful, NoMemory.forgets};
ghost use Rattle.verifier_desk.specs.{Desk.{DeskStandsFor, desk_with, no_lines_of}, Replies.DeskFields, Serving.Keeps};
ghost use Rattle.input_files.specs.CommandLine.{texts};
ghost use Rattle.desk_cli.specs.Desk.{HasServed, IsDeskAnswer, Meets, ServesFrom, desk_names_of, values_of};

use crate::answer_status::{served_status, unopened_status};
use crate::kind::desk_policy::DeskPolicy;
use crate::kind::keys::Keys;
use crate::memory_files::MemoryFiles;
use desk_memory::{EntryMemory, Memory, NoMemory};
use input_files::{File, Image, Inputs, RowEnd, Status, Unfit};
use outside_edge::{Shelf, Sink, Source};
use report_verifier::Policy;
use std::alloc::{AllocError, Global};
use verifier_desk::{Desk, KeyList, first_gone, first_taken, serve};

/// The row of a desk ends with what its files say.
pub struct DeskEnd;

impl RowEnd for DeskEnd {
    ghost use Rattle.desk_cli.specs.Desk.{DeskValues};

    ghost Outcome = { DeskValues };
}

// The files of a desk, in the order in which they are read, and the name of its memory.
#[derive(Clone, Copy)]
struct DeskFiles<'a> {
    keys: File<'a, Keys>,
    image: File<'a, Image>,
    policy: File<'a, DeskPolicy>,
    memory: Option<&'a str>,
}

/// What the files of a desk say: whom it serves, and what it judges reports by.
#[derive(Drop)]
pub struct FileValues {
    pub devices: KeyList,
    pub image: mem_map::Image,
    pub policy: Policy,
}

// The files and the memory that the arguments after `desk` name.
fn desk_files(arguments: &[String]) -> Option<DeskFiles<'_>>
    ensures { option_map (λ found. record {
      keys = found.keys.name.now;
      image = found.image.name.now;
      policy = found.policy.name.now;
      memory = option_map (λ name. name.now) found.memory;
    }) result ≡ desk_names_of (texts arguments.now) }
{
    let (keys, image, policy, memory) = match arguments {
        [keys, image, policy] => (keys, image, policy, None),
        [keys, image, policy, memory] => (keys, image, policy, Some(memory.as_str())),
        _ => return None,
    };
    Some(DeskFiles {
        keys: File::new(keys.as_str(), Keys),
        image: File::new(image.as_str(), Image),
        policy: File::new(policy.as_str(), DeskPolicy),
        memory,
    })
}

/// Opens the desk of these arguments after `desk`, and serves the source.
pub fn run_desk<S: Shelf, M: EntryMemory + Drop, F: MemoryFiles<M>, R: Source, W: Sink>(
    alloc: Global,
    arguments: &[String],
    shelf: &mut S,
    memories: &mut F,
    source: &mut R,
    sink: &mut W,
) -> Status
    ensures { IsDeskAnswer S.Shelf F.told R.Source M.Memory M.desk_of W.Sink shelf.old shelf.new
        memories.old memories.new (record { source = source.old; sink = sink.old })
        (record { source = source.new; sink = sink.new })
        (desk_names_of (texts arguments.now)) result }
{
    let Some(files) = desk_files(arguments) else {
        return Status::Words;
    };
    let inputs = (files.keys, (files.image, files.policy));
    match inputs.read::<DeskEnd, S>(alloc, shelf) {
        Ok(values) => {
            let (devices, (image, policy)) = values;
            let values = FileValues {
                devices,
                image,
                policy,
            };
            serve_files(alloc, values, files.memory, memories, source, sink)
        }
        Err(refusal) => Status::of_refusal(refusal),
    }
}

// Serves the source from the desk of these files: without a memory, or over that of a name.
fn serve_files<M: EntryMemory + Drop, F: MemoryFiles<M>, R: Source, W: Sink>(
    alloc: Global,
    values: FileValues,
    memory: Option<&str>,
    memories: &mut F,
    source: &mut R,
    sink: &mut W,
) -> Status
    ensures served { ServesFrom F.told R.Source M.Memory M.desk_of W.Sink
        (values_of values) (option_map (λ name. name.now) memory.entry) memories.old memories.new
        (record { source = source.old; sink = sink.old })
        (record { source = source.new; sink = sink.new }) result }
    ensures source_faults { R.faults source.old ≤ R.faults source.new }
    ensures sink_faults { W.faults sink.old ≤ W.faults sink.new }
{
    match memory {
        None => serve_alone(alloc, values, source, sink),
        Some(name) => match memories.open(name) {
            Ok(memory) => {
                let (status, memory) = serve_over(alloc, values, memory, source, sink);
                memories.close(memory);
                status
            }
            Err(fault) => unopened_status(fault),
        },
    }
}

// Serves the source without a memory.
fn serve_alone<R: Source, W: Sink>(
    alloc: Global,
    values: FileValues,
    source: &mut R,
    sink: &mut W,
) -> Status
    ensures served { (opened : Forgetful) × (left : Forgetful)
        × HasServed R.Source forgets W.Sink
        (desk_with values.devices (byte_in values.image) values.policy []) opened left
        (record { source = source.old; sink = sink.old })
        (record { source = source.new; sink = sink.new }) result }
    ensures source_faults { R.faults source.old ≤ R.faults source.new }
    ensures sink_faults { W.faults sink.old ≤ W.faults sink.new }
{
    let FileValues {
        devices,
        image,
        policy,
    } = values;
    let desk = Desk::new(alloc, devices, image, policy, &[]);
    serve_from(alloc, desk, NoMemory, source, sink).0
}

// Serves the source over a memory that was opened, where each key stands under its own name there,
// and no device is gone. It gives the memory back.
fn serve_over<M: EntryMemory, R: Source, W: Sink>(
    alloc: Global,
    values: FileValues,
    memory: M,
    source: &mut R,
    sink: &mut W,
) -> (Status, M)
    ensures meets { (entries : List Entry) × M.stands memory entries
        × (Keeps M.Memory memory entries
        → Meets R.Source M.Memory W.Sink
        (values_of values) (record { source = source.old; sink = sink.old })
        (record { source = source.new; sink = sink.new }) result.0 (M.desk_of memory) entries
        memory result.1) }
    ensures source_faults { R.faults source.old ≤ R.faults source.new }
    ensures sink_faults { W.faults sink.old ≤ W.faults sink.new }
{
    let FileValues {
        devices,
        image,
        policy,
    } = values;
    let entries = memory.entries();
    match first_taken(alloc, &devices, entries) {
        Ok(None) => {}
        Ok(Some(place)) => return (Status::BadMemory(Unfit::TakenKey(place as u64 + 1)), memory),
        Err(_) => return (Status::Memory, memory),
    }
    if let Some(place) = first_gone(&devices, entries) {
        return (
            Status::BadMemory(Unfit::GoneDevice(place as u64 + 1)),
            memory,
        );
    }
    let desk = Desk::new(alloc, devices, image, policy, entries);
    serve_from(alloc, desk, memory, source, sink)
}

// Serves the source from a desk, where there was memory for one. It gives the memory back.
fn serve_from<M: Memory, R: Source, W: Sink>(
    alloc: Global,
    desk: Result<Desk, AllocError>,
    memory: M,
    source: &mut R,
    sink: &mut W,
) -> (Status, M)
    ensures served { (fields : DeskFields)
        → IfOk desk (λ desk. DeskStandsFor desk fields no_lines_of)
        → Keeps M.Memory memory fields.entries
        → HasServed R.Source M.Memory W.Sink fields memory result.1
        (record { source = source.old; sink = sink.old })
        (record { source = source.new; sink = sink.new }) result.0 }
    ensures source_faults { R.faults source.old ≤ R.faults source.new }
    ensures sink_faults { W.faults sink.old ≤ W.faults sink.new }
{
    match desk {
        Ok(desk) => {
            let (served, memory) = serve(alloc, desk, source, memory, sink);
            (served_status(served), memory)
        }
        Err(_) => (Status::Memory, memory),
    }
}
