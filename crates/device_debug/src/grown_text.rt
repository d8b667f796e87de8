ghost use Rattle.std.specs.Prelude.{◌≡◌, [], is_ok, IfErr};
ghost use Rattle.debug_link.specs.declared.answer_fault.AnswerFault.TheVariants.{Memory};

use debug_link::AnswerFault;
use outside_edge::{Failed, Sink};
use std::alloc::Global;
use std::marker::Model;

/// A text that grows in memory. It fails where there is none.
#[derive(Drop)]
pub struct GrownText {
    bytes: Vec<u8>,
    faults: u64,
}

impl Model for GrownText {
    ghost use Rattle.device_debug.specs.Telling.{GrownText as Grown};

    ghost Value = { Grown };

    ghost view = { λ text. record { bytes = text.bytes.items; faults = text.faults } };
}

impl GrownText {
    pub fn new(alloc: Global) -> GrownText
        ensures { result ≡ record { bytes = []; faults = 0 } }
    {
        GrownText {
            bytes: Vec::new(alloc),
            faults: 0,
        }
    }

    pub fn as_slice(&self) -> &[u8]
        ensures { result.now ≡ self.now.bytes }
    {
        self.bytes.as_slice()
    }
}

impl Sink for GrownText {
    ghost stands = { λ text bytes. bytes ≡ text.bytes };

    ghost faults = { λ text. text.faults };

    fn put(&mut self, piece: &[u8]) -> Result<usize, Failed> {
        match self.bytes.extend_from_slice(piece) {
            Ok(()) => Ok(piece.len()),
            Err(_) => {
                self.faults = self.faults.saturating_add(1);
                Err(Failed)
            }
        }
    }
}

/// The end of a call that put text into memory.
pub fn memory_result(given: Result<(), Failed>) -> Result<(), AnswerFault>
    ensures same { is_ok result ≡ is_ok given }
    ensures fault { IfErr result (λ fault. fault ≡ Memory) }
{
    match given {
        Ok(()) => Ok(()),
        Err(Failed) => Err(AnswerFault::Memory),
    }
}
