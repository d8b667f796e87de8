use crate::numbered_entries::{NumberedEntries, read_numbered};
use input_files::{BadFile, Kind};
use std::alloc::Global;
use text_scan::{FaultAt, TextFault};

// The most bytes of a text of states.
const STATES_LIMIT: usize = 4_194_304;

/// The states of devices, a line for each entry of a memory.
#[derive(Clone, Copy, Debug)]
pub struct States;

impl Kind for States {
    ghost use Rattle.desk_cli.specs.{FileKind.states_kind, StateFile.NumberedEntries as Fields};

    type Value = NumberedEntries;

    ghost Meaning = { Fields };

    ghost meaning = { λ states. states };

    ghost kind = { states_kind };

    fn limit() -> usize {
        STATES_LIMIT
    }

    fn parse(alloc: Global, bytes: Vec<u8>) -> Result<NumberedEntries, TextFault> {
        read_numbered(alloc, &bytes)
    }

    fn refusal(fault: FaultAt) -> BadFile {
        BadFile::States(fault)
    }
}
