use input_files::{BadFile, Kind};
use std::alloc::Global;
use text_scan::{FaultAt, TextFault};
use trace_files::{Audited, audit_file};

// The most bytes of a trace file.
const LIMIT: usize = 67_108_864;

/// A trace file. It is audited as it is read, so that no line of it is kept.
#[derive(Clone, Copy, Debug)]
pub struct Trace;

impl Kind for Trace {
    ghost use Rattle.trace_files.specs.declared.audited.Audited.{Audited as Said};
    ghost use Rattle.device_cli.specs.FileKind.{trace_kind};

    type Value = Audited;

    ghost Meaning = { Said };

    ghost meaning = { λ audited. audited };

    ghost kind = { trace_kind };

    fn limit() -> usize {
        LIMIT
    }

    fn parse(_alloc: Global, bytes: Vec<u8>) -> Result<Audited, TextFault> {
        audit_file(&bytes).map_err(TextFault::At)
    }

    fn refusal(fault: FaultAt) -> BadFile {
        BadFile::Trace(fault)
    }
}
