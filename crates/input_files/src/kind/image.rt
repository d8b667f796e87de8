use crate::bad_file::BadFile;
use crate::kind::{Kind, TEXT_LIMIT};
use hex_loader::read_hex;
use std::alloc::Global;
use text_scan::{FaultAt, TextFault};

/// An image in Intel HEX.
#[derive(Clone, Copy, Debug)]
pub struct Image;

impl Kind for Image {
    ghost use Rattle.std.specs.Prelude.{ℕ, Option};
    ghost use Rattle.mem_map.specs.Image.{byte_in};
    ghost use Rattle.input_files.specs.FileKind.{image_kind};

    type Value = mem_map::Image;

    ghost Meaning = { ℕ → Option ℕ };

    ghost meaning = { byte_in };

    ghost kind = { image_kind };

    fn limit() -> usize {
        TEXT_LIMIT
    }

    fn parse(alloc: Global, bytes: Vec<u8>) -> Result<mem_map::Image, TextFault> {
        read_hex(alloc, &bytes)
    }

    fn refusal(fault: FaultAt) -> BadFile {
        BadFile::Image(fault)
    }
}
