//! The program of the device: `run` of `device_cli` over the file system and standard output.
#![tactic(auto)]

mod help_text;
mod version;

use crate::help_text::HELP;
use crate::version::VERSION;
use device_cli::run::run;
use input_files::{OwnTexts, Program, Status, run_program};
use outside_edge::{BufferedSink, Failed, FileShelf, StdSink, SystemFiles};
use std::process::ExitCode;
use std::{env, io};

fn main(rt: HostRuntime) -> ExitCode {
    let texts = OwnTexts {
        help: HELP,
        version: VERSION,
    };
    let mut output = StdSink::new(io::writer(&rt));
    run_program(
        &rt,
        env::args(&rt),
        &Device { rt: &rt },
        &texts,
        &mut output,
    )
}

// The program over the file system and standard output.
#[derive(Clone, Copy)]
struct Device<'a> {
    rt: &'a HostRuntime,
}

impl Program for Device<'_> {
    ghost use Rattle.std.specs.Prelude.{◌≡◌, ◌⊎◌, ◌↔◌, None};
    ghost use Rattle.input_files.specs.declared.status.Status.TheVariants.{Words, WriteFault};
    ghost use Rattle.device_cli.specs.Command.{row_of};

    // Words that spell no command are refused, and no others are.
    ghost may_answer = { λ device arguments status.
        (status ≡ WriteFault) ⊎ ((status ≡ Words) ↔ (row_of arguments ≡ None)) };

    // Some KiB of the text may be left in the buffer; where they can't be written, nothing else is
    // answered.
    fn run(&self, arguments: &[String]) -> Status {
        let mut shelf = FileShelf::new(SystemFiles::new(self.rt));
        let mut output = BufferedSink::new(StdSink::new(io::writer(self.rt)));
        let status = run(self.rt.alloc(), arguments, &mut shelf, &mut output);
        let (_, end) = output.finish();
        match end {
            Ok(()) => status,
            Err(Failed) => Status::WriteFault,
        }
    }
}
