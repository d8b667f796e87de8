ghost use Rattle.std.specs.Prelude.{◌≡◌, IfOk, IsTrue};
ghost use Rattle.desk_memory.specs.Entry.{entry_state, home_fields, is_sized};

use crate::device_state::DeviceState;
use crate::home::Home;
use crate::key_mark::MARK;
use std::alloc::{AllocError, Global};
use std::marker::Model;

/// A device's name, the mark of the key that it was served under, its state, and where it is at
/// home.
#[derive(Drop)]
pub struct Entry {
    name: Vec<u8>,
    mark: [u8; MARK],
    state: DeviceState,
    moves: u32,
    gone: Option<Vec<u8>>,
}

impl Model for Entry {
    ghost use Rattle.std.specs.Option.{option_map};
    ghost use Rattle.desk_memory.specs.Entry.{Entry as EntryFields};

    ghost Value = { EntryFields };

    ghost view = { λ entry. record {
      name = entry.name.items;
      mark = entry.mark;
      state = entry.state;
      home = record { moves = entry.moves; gone = option_map (λ desk. desk.items) entry.gone };
    } };
}

impl Entry {
    pub fn new(
        alloc: Global,
        name: &[u8],
        mark: &[u8; MARK],
        state: DeviceState,
        home: Home<'_>,
    ) -> Result<Entry, AllocError>
        ensures made { IfOk result (λ entry. entry ≡ record {
          name = name.now;
          mark = mark.now;
          state = state;
          home = home_fields home.entry;
        }) }
        ensures sized { IfOk result (λ entry. IsTrue (is_sized entry)) }
    {
        let name = name.to_vec(alloc)?;
        let gone = match home.gone {
            Some(desk) => Some(desk.to_vec(alloc)?),
            None => None,
        };
        Ok(Entry {
            name,
            mark: *mark,
            state,
            moves: home.moves,
            gone,
        })
    }

    /// The same entry once more.
    pub fn copy(&self, alloc: Global) -> Result<Entry, AllocError>
        ensures { IfOk result (λ entry. entry ≡ self.now) }
    {
        Entry::new(alloc, &self.name, &self.mark, self.state, self.home())
    }

    pub fn name(&self) -> &[u8]
        ensures { result.now ≡ self.now.name }
    {
        self.name.as_slice()
    }

    pub fn mark(&self) -> &[u8; MARK]
        ensures { result.now ≡ self.now.mark }
    {
        &self.mark
    }

    pub fn state(&self) -> DeviceState
        ensures { result ≡ self.now.state }
    {
        self.state
    }

    pub fn home(&self) -> Home<'_>
        ensures { home_fields result ≡ self.now.home }
    {
        Home {
            moves: self.moves,
            gone: self.gone.as_deref(),
        }
    }

    /// The state of its device under a key of this mark.
    pub fn state_under(&self, mark: &[u8; MARK]) -> DeviceState
        ensures { result ≡ entry_state mark.now self.now }
    {
        if self.mark == *mark {
            self.state
        } else {
            self.state.under_new_key()
        }
    }
}
