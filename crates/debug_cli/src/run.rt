ghost use Rattle.std.specs.Prelude.{◌≡◌};
ghost use Rattle.input_files.specs.CommandLine.{texts};
ghost use Rattle.debug_cli.specs.Session.{IsSessionAnswer, session_row_of};

use crate::debug::{debug_files, run_debug};
use crate::live::{live_files, run_live};
use device_debug::Interrupts;
use input_files::Status;
use outside_edge::{Shelf, Sink, Source};
use std::alloc::Global;

/// Runs the command that the arguments spell: `debug` or `live`. It gives the sink back.
///
/// `arguments` is the command line without the program's name. What may interrupt a device on its
/// way is looked for by `debug` alone.
pub fn run<S: Shelf, R: Source, W: Sink + Drop, I: Interrupts + Drop>(
    alloc: Global,
    arguments: &[String],
    shelf: &mut S,
    source: &mut R,
    sink: W,
    interrupts: I,
) -> (Status, W)
    ensures { IsSessionAnswer S.Shelf R.Source W.Sink shelf.old shelf.new (I.left interrupts)
        (record { source = source.old; sink = sink })
        (record { source = source.new; sink = result.1 })
        (session_row_of (texts arguments.now)) result.0 }
{
    if let Some(files) = debug_files(arguments) {
        return run_debug(alloc, &files, shelf, source, sink, interrupts);
    }
    if let Some(files) = live_files(arguments) {
        return run_live(alloc, &files, shelf, source, sink);
    }
    (Status::Words, sink)
}
