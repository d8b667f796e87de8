use crate::command::file_command::ShownKind;
use crate::ending::Ending;
use device_play::PutFault;
use input_files::Image;
use msp_asm::write_listing;
use outside_edge::Sink;

/// The command `list IMAGE`.
impl ShownKind for Image {
    ghost use Rattle.std.specs.Prelude.{refl};
    ghost use Rattle.mem_map.specs.Image.{byte_in};
    ghost use Rattle.device_cli.specs.Command.{list_outcome, list_row};

    ghost row_of_file = { list_row };

    ghost outcome = { λ image. list_outcome (byte_in image) };

    fn kind() -> Image {
        Image
    }

    fn put<W: Sink>(image: &mem_map::Image, sink: &mut W) -> Result<Ending, PutFault> {
        write_listing(image, sink)?;
        Ok(Ending::Done)
    }

    ghost shown = { record {
      told = list_outcome;
      row_is = λ name. refl;
      outcome_is = refl;
      of_no_play = λ meaning. refl;
    } };
}
