use crate::bad_file::BadFile;
use crate::kind::Kind;
use std::alloc::Global;
use text_scan::{FaultAt, TextFault, read_key};

// The most bytes of a key's file.
const KEY_LIMIT: usize = 256;

/// A device's key: 128 hexadecimal digits in one line.
#[derive(Clone, Copy, Debug)]
pub struct Key;

impl Kind for Key {
    ghost use Rattle.std.specs.Prelude.{ℕ, List};
    ghost use Rattle.input_files.specs.FileKind.{key_kind};

    type Value = [u8; 64];

    ghost Meaning = { List ℕ };

    ghost meaning = { λ key. key };

    ghost kind = { key_kind };

    fn limit() -> usize {
        KEY_LIMIT
    }

    fn parse(_alloc: Global, bytes: Vec<u8>) -> Result<[u8; 64], TextFault> {
        read_key(&bytes).map_err(TextFault::At)
    }

    fn refusal(fault: FaultAt) -> BadFile {
        BadFile::Key(fault)
    }
}
