ghost use Rattle.std.specs.Process.{exit_status};
ghost use Rattle.input_files.specs.{Program.IsAnswer, Status.EndsAs};

use crate::command_line::arguments_of;
use crate::own_texts::{OwnTexts, print_text};
use crate::program_end::exit_with;
use crate::status::Status;
use outside_edge::Sink;
use std::env::Args;
use std::io;
use std::process::ExitCode;

/// A program, as it runs the arguments that ask for no text of its own.
pub trait Program {
    ghost use Rattle.std.specs.Prelude.{ℕ, List};
    ghost use Rattle.input_files.specs.{CommandLine.texts, declared.status.Status.Status};

    /// It may answer these arguments so.
    ghost may_answer: { Self → List (List ℕ) → Status → Type 0 };

    fn run(&self, arguments: &[String]) -> Status
        ensures { may_answer self.now (texts arguments.now) result };
}

// Answers a command line.
fn answer<R: AllocGlobal, P: Program, W: Sink>(
    rt: &R,
    words: io::Result<Args>,
    program: &P,
    texts: &OwnTexts<'_>,
    output: &mut W,
) -> Status
    ensures { IsAnswer W.stands output.old output.new texts.now.help.now texts.now.version.now
        (P.may_answer program.now) words result }
{
    let arguments = match arguments_of(rt.alloc(), words) {
        Ok(arguments) => arguments,
        Err(status) => return status,
    };
    match texts.asked_for(&arguments) {
        Some(text) => print_text(text, output),
        None => program.run(&arguments),
    }
}

/// Runs a program on its command line, and ends it. A text of its own is put into `output`.
pub fn run_program<R: AllocGlobal + Eprint, P: Program, W: Sink>(
    rt: &R,
    words: io::Result<Args>,
    program: &P,
    texts: &OwnTexts<'_>,
    output: &mut W,
) -> ExitCode
    ensures { EndsAs (exit_status result) (IsAnswer W.stands output.old output.new
        texts.now.help.now texts.now.version.now (P.may_answer program.now) words) }
{
    let status = answer(rt, words, program, texts, output);
    exit_with(rt, status)
}
