ghost use Rattle.std.specs.{Prelude.{◌≡◌, OnOk, Some, None}, Map.update, Str.bytes_eq};

use std::alloc::{AllocError, Global};
use std::collections::BTreeMap;

/// The names of a source that have a value.
#[derive(Drop)]
pub struct Names<'a> {
    values: BTreeMap<&'a [u8], i32>,
}

impl<'a> Names<'a> {
    ghost use Rattle.msp_asm.specs.Value.{value_in};

    pub fn new(alloc: Global) -> Names<'a>
        ensures { value_in result ≡ (λ name. None) }
    {
        Names {
            values: BTreeMap::new(alloc),
        }
    }

    /// The value of a name.
    pub fn get(&self, name: &[u8]) -> Option<i32>
        ensures { result ≡ value_in self.now name.now }
    {
        self.values.get(name).copied()
    }

    /// Gives a name a value.
    pub fn insert(&mut self, name: &'a [u8], value: i32) -> Result<(), AllocError>
        ensures { OnOk result
            (value_in self.new ≡ update bytes_eq (value_in self.old) name.now (Some value)) }
    {
        self.values.insert(name, value)?;
        Ok(())
    }
}
