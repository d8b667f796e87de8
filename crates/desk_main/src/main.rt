//! The program of the desk: `run` of `desk_cli` over the file system, standard input and standard
//! output.
#![tactic(auto)]

ghost use Rattle.std.specs.Prelude.{◌≡◌};
ghost use Rattle.input_files.specs.{CommandLine.texts, declared.status.Status.TheVariants.Words};
ghost use Rattle.desk_cli.specs.Run.{HasNoCommand};

mod help_text;
mod version;

use crate::help_text::HELP;
use crate::version::VERSION;
use desk_cli::StoreFiles;
use desk_cli::run::run;
use desk_database::SystemPlaces;
use input_files::{OwnTexts, Program, Status, run_program};
use outside_edge::{BufferedSink, Failed, FileShelf, Sink, StdSink, StdSource, SystemFiles};
use sqlite_std_file::{Start, Wary};
use std::process::ExitCode;
use std::{env, fs, io};

fn main(rt: HostRuntime) -> ExitCode {
    let texts = OwnTexts {
        help: HELP,
        version: VERSION,
    };
    let mut output = StdSink::new(io::writer(&rt));
    run_program(&rt, env::args(&rt), &Desk { rt: &rt }, &texts, &mut output)
}

// The program over the file system, standard input and standard output.
#[derive(Clone, Copy)]
struct Desk<'a> {
    rt: &'a HostRuntime,
}

impl Program for Desk<'_> {
    ghost use Rattle.std.specs.Prelude.{◌≡◌, ◌⊎◌};
    ghost use Rattle.input_files.specs.declared.status.Status.TheVariants.{Words, WriteFault};
    ghost use Rattle.desk_cli.specs.Run.{HasNoCommand};

    // Words that name no command are refused.
    ghost may_answer = { λ desk arguments status.
        HasNoCommand arguments → (status ≡ WriteFault) ⊎ (status ≡ Words) };

    // A desk's replies are out at once. Of all other text some KiB may be left in the buffer; where
    // they can't be written, nothing else is answered.
    fn run(&self, arguments: &[String]) -> Status {
        match arguments {
            [name, ..] if name.as_str() == "desk" => {
                run_into(
                    self.rt,
                    arguments,
                    Wary,
                    &mut StdSink::new(io::writer(self.rt)),
                )
            }
            _ => {
                let mut output = BufferedSink::new(StdSink::new(io::writer(self.rt)));
                let status = run_into(self.rt, arguments, Wary, &mut output);
                let (_, end) = output.finish();
                match end {
                    Ok(()) => status,
                    Err(Failed) => Status::WriteFault,
                }
            }
        }
    }
}

// Runs the arguments over the files and memories of the file system and standard input, and ends
// the use of the memory. `start` stands for what a memory's files hold. Where standard input is
// closed, the first file that is opened takes its descriptor: let it be a folder, which no read of
// standard input can take for its bytes.
fn run_into<S: Start, W: Sink>(
    rt: &HostRuntime,
    arguments: &[String],
    start: S,
    output: &mut W,
) -> Status
    ensures { HasNoCommand (texts arguments.now) → result ≡ Words }
{
    let _folder = fs::open(rt, "/");
    let mut shelf = FileShelf::new(SystemFiles::new(rt));
    let mut memories = StoreFiles::new(rt.alloc(), SystemPlaces::new(rt, start));
    let mut source = StdSource::new(rt.reader());
    let status = run(
        rt.alloc(),
        arguments,
        &mut shelf,
        &mut memories,
        &mut source,
        output,
    );
    memories.end();
    status
}
