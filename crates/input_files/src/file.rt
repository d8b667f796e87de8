ghost use Rattle.std.specs.Prelude.{◌≡◌};
ghost use Rattle.input_files.specs.Reading.{refusal_of, ParsesAs};

use crate::inputs::Inputs;
use crate::kind::Kind;
use crate::refusal::Refusal;
use crate::row_end::RowEnd;
use outside_edge::{FileFault, Shelf, read_whole};
use std::alloc::Global;
use text_scan::{FaultAt, FaultKind, TextFault};

/// A file of one kind, by its name.
#[derive(Clone, Copy, Debug)]
pub struct File<'a, K> {
    pub name: &'a str,
    pub kind: K,
}

impl<'a, K> File<'a, K> {
    pub fn new(name: &'a str, kind: K) -> File<'a, K>
        ensures { result.name.now ≡ name.now }
    {
        File { name, kind }
    }
}

impl<K: Kind> Inputs for File<'_, K> {
    ghost use Rattle.input_files.specs.Row.{read_file};

    type Values = K::Value;

    ghost Meaning = { K.Meaning };

    ghost meaning = { K.meaning };

    ghost row_with = { λ Outcome file onward. read_file K.kind file.name.now onward };

    fn read<E: RowEnd, S: Shelf>(&self, alloc: Global, shelf: &mut S) -> Result<K::Value, Refusal> {
        match read_whole(alloc, shelf, self.name, K::limit()) {
            Ok(bytes) => parse::<K>(alloc, bytes),
            Err(fault) => Err(refusal_of::<K>(fault)),
        }
    }
}

// The refusal where a whole file can't be had. Past its limit a file has its fault at line 0.
fn refusal_of<K: Kind>(fault: FileFault) -> Refusal
    ensures { result ≡ refusal_of K.kind fault }
{
    match fault {
        FileFault::Absent => Refusal::Absent,
        FileFault::Failed => Refusal::ReadFault,
        FileFault::TooLong => Refusal::Bad(K::refusal(FaultAt {
            line: 0,
            kind: FaultKind::TooLong,
        })),
        FileFault::Memory(_) => Refusal::Memory,
    }
}

// The value of a file's bytes, or the refusal that says why there is none.
fn parse<K: Kind>(alloc: Global, bytes: Vec<u8>) -> Result<K::Value, Refusal>
    ensures { ParsesAs K.kind K.meaning bytes.items result }
{
    K::parse(alloc, bytes).map_err(|fault| match fault {
        TextFault::At(fault) => Refusal::Bad(K::refusal(fault)),
        TextFault::Memory(_) => Refusal::Memory,
    })
}
