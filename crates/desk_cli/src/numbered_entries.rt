ghost use Rattle.std.specs.Prelude.{◌≡◌, slice_index_or, IfOk};
ghost use Rattle.text_scan.specs.{LineFold.text_lines, Reader.Reads};
ghost use Rattle.desk_cli.specs.StateFile.{numbered_entries_of, said_numbers};

use crate::state_list::{StateList, read_states};
use desk_memory::Entry;
use std::alloc::{AllocError, Global};
use std::marker::Model;
use text_scan::{Lines, TextFault, is_passed_over};

/// The entries of a text of states in its order, and the numbers of their lines.
#[derive(Drop)]
pub struct NumberedEntries {
    entries: StateList,
    numbers: Vec<u64>,
}

impl Model for NumberedEntries {
    ghost use Rattle.desk_cli.specs.StateFile.{NumberedEntries as Fields};

    ghost Value = { Fields };

    ghost view = { λ read. record { entries = read.entries; numbers = read.numbers.items } };
}

impl NumberedEntries {
    pub fn entries(&self) -> &[Entry]
        ensures { result.now ≡ self.now.entries }
    {
        self.entries.as_slice()
    }

    /// The number of the line of the entry at this place.
    pub fn number(&self, place: usize) -> u64
        ensures { result ≡ slice_index_or self.now.numbers place 0 }
    {
        self.numbers.get(place).copied().unwrap_or(0)
    }
}

/// The entries of a text with the numbers of their lines, or the first fault.
pub fn read_numbered(alloc: Global, text: &[u8]) -> Result<NumberedEntries, TextFault>
    ensures { Reads result (numbered_entries_of text.now) }
{
    let entries = read_states(alloc, text)?;
    let numbers = said_numbers(alloc, text).map_err(TextFault::Memory)?;
    Ok(NumberedEntries { entries, numbers })
}

// The numbers of the lines that say something.
fn said_numbers(alloc: Global, text: &[u8]) -> Result<Vec<u64>, AllocError>
    ensures { IfOk result (λ numbers. numbers.items ≡ said_numbers (text_lines text.now)) }
{
    let mut numbers = Vec::new(alloc);
    for (number, line) in Lines::new(text) {
        if !is_passed_over(line) {
            numbers.push(number)?;
        }
    }
    Ok(numbers)
}
