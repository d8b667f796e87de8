use crate::command::file_command::ShownKind;
use crate::ending::Ending;
use crate::kind::source::Source;
use device_play::PutFault;
use hex_loader::write_hex;
use mem_map::Image;
use outside_edge::Sink;

/// The command `asm SOURCE`.
impl ShownKind for Source {
    ghost use Rattle.std.specs.Prelude.{refl};
    ghost use Rattle.mem_map.specs.Image.{byte_in};
    ghost use Rattle.device_cli.specs.Command.{asm_outcome, asm_row};

    ghost row_of_file = { asm_row };

    ghost outcome = { λ image. asm_outcome (byte_in image) };

    fn kind() -> Source {
        Source
    }

    fn put<W: Sink>(image: &Image, sink: &mut W) -> Result<Ending, PutFault> {
        write_hex(image, sink)?;
        Ok(Ending::Done)
    }

    ghost shown = { record {
      told = asm_outcome;
      row_is = λ name. refl;
      outcome_is = refl;
      of_no_play = λ meaning. refl;
    } };
}
