use input_files::{BadFile, Kind};
use std::alloc::Global;
use text_scan::{FaultAt, TextFault};
use verifier_desk::{KeyList, read_keys};

// The most bytes of a file of keys.
const KEYS_LIMIT: usize = 262_144;

/// The keys of a desk's devices, a line each.
#[derive(Clone, Copy, Debug)]
pub struct Keys;

impl Kind for Keys {
    ghost use Rattle.std.specs.Prelude.{List};
    ghost use Rattle.verifier_desk.specs.DeviceKey.{DeviceKey};
    ghost use Rattle.desk_cli.specs.FileKind.{keys_kind};

    type Value = KeyList;

    ghost Meaning = { List DeviceKey };

    ghost meaning = { λ keys. keys };

    ghost kind = { keys_kind };

    fn limit() -> usize {
        KEYS_LIMIT
    }

    fn parse(alloc: Global, bytes: Vec<u8>) -> Result<KeyList, TextFault> {
        read_keys(alloc, &bytes)
    }

    fn refusal(fault: FaultAt) -> BadFile {
        BadFile::Keys(fault)
    }
}
