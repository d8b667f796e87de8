ghost use Rattle.std.specs.Prelude.{◌≡◌};
ghost use Rattle.input_files.specs.Program.{IsPrinted};

use crate::status::Status;
use outside_edge::{Failed, Sink, put_all};

/// What a program prints of itself.
#[derive(Clone, Copy, Debug)]
pub struct OwnTexts<'a> {
    pub help: &'a str,
    pub version: &'a str,
}

impl<'a> OwnTexts<'a> {
    ghost use Rattle.std.specs.Prelude.{option_map};
    ghost use Rattle.input_files.specs.{CommandLine.texts, Program.own_text_of};

    /// The text that `--help` or `--version` asks for, where it stands alone.
    pub fn asked_for(&self, arguments: &[String]) -> Option<&'a str>
        ensures { option_map (λ text. text.now) result
            ≡ own_text_of self.now.help.now self.now.version.now (texts arguments.now) }
    {
        match arguments {
            [only] if only.as_str() == "--help" => Some(self.help),
            [only] if only.as_str() == "--version" => Some(self.version),
            _ => None,
        }
    }
}

/// Puts such a text.
pub fn print_text<W: Sink>(text: &str, output: &mut W) -> Status
    ensures { IsPrinted W.stands output.old output.new text.now result }
{
    match put_all(output, text.as_bytes()) {
        Ok(()) => Status::Done,
        Err(Failed) => Status::WriteFault,
    }
}
