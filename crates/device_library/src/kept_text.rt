ghost use Rattle.std.specs.Prelude.{◌≡◌, [], length, IfOk};

use outside_edge::{Failed, Sink};
use std::alloc::Global;
use std::marker::Model;

/// A sink that keeps all bytes that are put. It fails where there is no memory for them.
#[derive(Drop)]
pub struct KeptText {
    held: Vec<u8>,
    faults: u64,
}

impl Model for KeptText {
    ghost use Rattle.device_library.specs.KeptText.{KeptBytes};

    ghost Value = { KeptBytes };

    ghost view = { λ text. record { held = text.held.items; faults = text.faults } };
}

impl KeptText {
    pub fn new(alloc: Global) -> KeptText
        ensures { result ≡ record { held = []; faults = 0 } }
    {
        KeptText {
            held: Vec::new(alloc),
            faults: 0,
        }
    }

    /// The bytes that were put.
    pub fn as_bytes(&self) -> &[u8]
        ensures { result.now ≡ self.now.held }
    {
        &self.held
    }
}

impl Sink for KeptText {
    ghost stands = { λ text bytes. bytes ≡ text.held };

    ghost faults = { λ text. text.faults };

    fn put(&mut self, piece: &[u8]) -> Result<usize, Failed> {
        let Ok(()) = self.held.extend_from_slice(piece) else {
            self.faults = self.faults.saturating_add(1);
            return Err(Failed);
        };
        Ok(piece.len())
    }
}
