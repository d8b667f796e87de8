use input_files::{BadFile, Kind, TEXT_LIMIT};
use mem_map::Image;
use msp_asm::assemble;
use std::alloc::Global;
use text_scan::{FaultAt, TextFault};

/// An assembler's source, which is read as its image.
#[derive(Clone, Copy, Debug)]
pub struct Source;

impl Kind for Source {
    ghost use Rattle.std.specs.Prelude.{ℕ, Option};
    ghost use Rattle.mem_map.specs.Image.{byte_in};
    ghost use Rattle.device_cli.specs.FileKind.{source_kind};

    type Value = Image;

    ghost Meaning = { ℕ → Option ℕ };

    ghost meaning = { byte_in };

    ghost kind = { source_kind };

    fn limit() -> usize {
        TEXT_LIMIT
    }

    fn parse(alloc: Global, bytes: Vec<u8>) -> Result<Image, TextFault> {
        assemble(alloc, &bytes)
    }

    fn refusal(fault: FaultAt) -> BadFile {
        BadFile::Source(fault)
    }
}
