//! The program of what serves standard input: `run` of `debug_cli` over the file system, standard
//! input and standard output.
#![tactic(auto)]

mod help_text;
mod interrupt_file;
mod version;

use crate::help_text::HELP;
use crate::interrupt_file::InterruptFile;
use crate::version::VERSION;
use debug_cli::run::run;
use input_files::{OwnTexts, Program, Status, run_program};
use outside_edge::{FileShelf, StdSink, StdSource, SystemFiles};
use std::process::ExitCode;
use std::{env, fs, io};

fn main(rt: HostRuntime) -> ExitCode {
    let texts = OwnTexts {
        help: HELP,
        version: VERSION,
    };
    let mut output = StdSink::new(io::writer(&rt));
    run_program(
        &rt,
        env::args(&rt),
        &Server { rt: &rt },
        &texts,
        &mut output,
    )
}

// The program over the file system, standard input and standard output.
#[derive(Clone, Copy)]
struct Server<'a> {
    rt: &'a HostRuntime,
}

impl Program for Server<'_> {
    ghost use Rattle.std.specs.Prelude.{◌≡◌, ◌↔◌, None};
    ghost use Rattle.input_files.specs.declared.status.Status.TheVariants.{Words};
    ghost use Rattle.debug_cli.specs.Session.{session_row_of};

    // Words that spell no command are refused, and no others are.
    ghost may_answer = { λ server arguments status.
        (status ≡ Words) ↔ (session_row_of arguments ≡ None) };

    // Where standard input is closed, the first file that is opened takes its descriptor: let it be
    // a folder, which no read of standard input can take for its bytes.
    fn run(&self, arguments: &[String]) -> Status {
        let _folder = fs::open(self.rt, "/");
        let mut shelf = FileShelf::new(SystemFiles::new(self.rt));
        let mut source = StdSource::new(self.rt.reader());
        let sink = StdSink::new(io::writer(self.rt));
        let interrupts = InterruptFile::new(self.rt);
        let alloc = self.rt.alloc();
        let (status, _) = run(alloc, arguments, &mut shelf, &mut source, sink, interrupts);
        status
    }
}
