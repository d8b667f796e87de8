ghost use Rattle.std.specs.Prelude.{◌≡◌, ◌≤◌, List, option_map};
ghost use Rattle.desk_memory.specs.Entry.{Entry as EntryFields};
ghost use Rattle.input_files.specs.CommandLine.{texts};
ghost use Rattle.desk_cli.specs.{StateText.states_text, States.{IsStatesAnswer, PutsText, states_name_of}};

use crate::answer_status::unopened_status;
use crate::memory_files::MemoryFiles;
use crate::state_line::put_states;
use desk_memory::{Entry, EntryMemory};
use input_files::Status;
use outside_edge::{Failed, Sink};

// The memory that the arguments after `states` name.
fn states_name(arguments: &[String]) -> Option<&str>
    ensures { option_map (λ name. name.now) result ≡ states_name_of (texts arguments.now) }
{
    match arguments {
        [memory] => Some(memory.as_str()),
        _ => None,
    }
}

/// Puts the entries of the memory of these arguments after `states`.
pub fn run_states<M: EntryMemory + Drop, F: MemoryFiles<M>, W: Sink>(
    arguments: &[String],
    memories: &mut F,
    sink: &mut W,
) -> Status
    ensures { IsStatesAnswer F.told M.Memory M.desk_of W.Sink memories.old memories.new sink.old
        sink.new (states_name_of (texts arguments.now)) result }
{
    let Some(name) = states_name(arguments) else {
        return Status::Words;
    };
    match memories.open(name) {
        Ok(memory) => {
            let status = tell_states(&memory, sink);
            memories.close(memory);
            status
        }
        Err(fault) => unopened_status(fault),
    }
}

// Puts the entries of a memory.
fn tell_states<M: EntryMemory, W: Sink>(memory: &M, sink: &mut W) -> Status
    ensures puts { (entries : List EntryFields) × M.stands memory.now entries
        × PutsText W.Sink sink.old sink.new (states_text entries) result }
    ensures counted { W.faults sink.old ≤ W.faults sink.new }
{
    put_text(memory.entries(), sink)
}

/// Puts a line for each entry, and answers how it ended.
pub fn put_text<W: Sink>(entries: &[Entry], sink: &mut W) -> Status
    ensures puts { PutsText W.Sink sink.old sink.new (states_text entries.now) result }
    ensures counted { W.faults sink.old ≤ W.faults sink.new }
{
    match put_states(entries, sink) {
        Ok(()) => Status::Done,
        Err(Failed) => Status::WriteFault,
    }
}
