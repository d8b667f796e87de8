ghost use Rattle.std.specs.Prelude.{IfOk};
ghost use Rattle.mem_map.specs.Image.{byte_in};
ghost use Rattle.text_scan.specs.Reader.{Reads, value_as};
ghost use Rattle.msp_asm.specs.{SecondPass.source_image, HasBytes.{OfEachStatement, HasBytesOf, HasInstructionOf}};

use crate::assembly::assemble_statements;
use crate::law::{instructions_stand_in_the_image, statements_stand_in_the_image};
use asm_text::parse;
use mem_map::Image;
use std::alloc::Global;
use text_scan::TextFault;

/// The image of a source, or its first fault: of the reading, else of the first pass, else of the
/// second. The image has the bytes of each statement, and those of an instruction are read as it.
pub fn assemble(alloc: Global, text: &[u8]) -> Result<Image, TextFault>
    ensures image { Reads (value_as byte_in result) (source_image text.now) }
    ensures placed { IfOk result (λ image.
        OfEachStatement (HasBytesOf (byte_in image)) text.now) }
    ensures decoded { IfOk result (λ image.
        OfEachStatement (HasInstructionOf (byte_in image)) text.now) }
{
    statements_stand_in_the_image();
    instructions_stand_in_the_image();
    match parse(alloc, text) {
        Ok(source) => assemble_statements(alloc, source.as_slice()),
        Err(fault) => Err(fault),
    }
}
