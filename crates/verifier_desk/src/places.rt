ghost use Rattle.std.specs.{Prelude.{◌≡◌, OnOk, OnErr, Some, None}, Map.update, Str.bytes_eq};

use std::alloc::{AllocError, Global};
use std::collections::BTreeMap;

/// The places of words in a list.
#[derive(Drop)]
pub struct Places {
    places: BTreeMap<Vec<u8>, usize>,
}

impl Places {
    ghost use Rattle.verifier_desk.specs.DeviceKey.{place_in};

    pub fn new(alloc: Global) -> Places
        ensures { place_in result ≡ (λ word. None) }
    {
        Places {
            places: BTreeMap::new(alloc),
        }
    }

    /// The place of a word.
    pub fn get(&self, word: &[u8]) -> Option<usize>
        ensures { result ≡ place_in self.now word.now }
    {
        self.places.get(word).copied()
    }

    /// Gives a word a place.
    pub fn insert(&mut self, alloc: Global, word: &[u8], place: usize) -> Result<(), AllocError>
        ensures placed { OnOk result
            (place_in self.new ≡ update bytes_eq (place_in self.old) word.now (Some place)) }
        ensures kept { OnErr result (place_in self.new ≡ place_in self.old) }
    {
        let word = word.to_vec(alloc)?;
        self.places.insert(word, place)?;
        Ok(())
    }
}
