use crate::bad_file::BadFile;
use crate::kind::{Kind, TEXT_LIMIT};
use play_script::read_script;
use std::alloc::Global;
use text_scan::{FaultAt, TextFault};

/// The events of a play by their steps.
#[derive(Clone, Copy, Debug)]
pub struct Script;

impl Kind for Script {
    ghost use Rattle.std.specs.Prelude.{List};
    ghost use Rattle.play_script.specs.Script.{TimedEvent};
    ghost use Rattle.input_files.specs.FileKind.{script_kind};

    type Value = play_script::Script;

    ghost Meaning = { List TimedEvent };

    ghost meaning = { λ script. script };

    ghost kind = { script_kind };

    fn limit() -> usize {
        TEXT_LIMIT
    }

    fn parse(alloc: Global, bytes: Vec<u8>) -> Result<play_script::Script, TextFault> {
        read_script(alloc, &bytes)
    }

    fn refusal(fault: FaultAt) -> BadFile {
        BadFile::Script(fault)
    }
}
