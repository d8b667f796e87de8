ghost use Rattle.std.specs.Prelude.{◌≡◌, ◌++◌, ◌∷◌, []};
ghost use Rattle.text_scan.specs.{LineFold.TakesLine, Reader.Reads};
ghost use Rattle.desk_cli.specs.StateFile.{states_of, with_line, with_new_entry};

use crate::entry_fault::check_entry;
use crate::state_entry::read_entry;
use desk_memory::Entry;
use std::alloc::Global;
use std::marker::Model;
use text_scan::{LineReader, TextFault, WordFault, read_text};

/// The entries of a text of states in its order.
#[derive(Drop)]
pub struct StateList {
    entries: Vec<Entry>,
}

/// Seen as its entries.
impl Model for StateList {
    ghost use Rattle.std.specs.Prelude.{◌≡◌, [], List};
    ghost use Rattle.desk_memory.specs.Entry.{Entry as EntryFields, with_entries};

    ghost Value = { List EntryFields };

    ghost view = { λ list. list.entries.items };

    ghost invariant = { λ list. with_entries [] list.entries.items ≡ list.entries.items };
}

impl<'a> LineReader<'a> for StateList {
    ghost with_line = { with_line };

    #[tactic(auto, unfolding(crate::specs::StateFile::with_line))]
    fn take(&mut self, alloc: Global, line: &'a [u8]) -> Result<(), WordFault> {
        let entry = read_entry(alloc, line)?;
        self.add(entry)
    }
}

impl StateList {
    fn new(alloc: Global) -> StateList
        ensures { result ≡ [] }
    {
        StateList {
            entries: Vec::new(alloc),
        }
    }

    pub fn as_slice(&self) -> &[Entry]
        ensures { result.now ≡ self.now }
    {
        &self.entries
    }

    // Puts an entry behind the others, where nothing is wrong with it there.
    #[tactic(auto, using(crate::proofs::StatesBehind::add_keeps))]
    fn add(&mut self, entry: Entry) -> Result<(), WordFault>
        ensures { TakesLine result self.new (with_new_entry self.old entry) }
    {
        check_entry(&self.entries, &entry)?;
        self.entries
            .push(entry)
            .map_err(|error| WordFault::Memory(error.into()))
    }
}

/// The entries of a text in the order of its lines, or the first fault.
pub fn read_states(alloc: Global, text: &[u8]) -> Result<StateList, TextFault>
    ensures { Reads result (states_of text.now) }
{
    read_text(alloc, StateList::new(alloc), text)
}
