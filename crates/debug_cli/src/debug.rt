ghost use Rattle.std.specs.Prelude.{◌≡◌, ◌≤◌, Some, option_map};
ghost use Rattle.mem_map.specs.Image.{byte_in};
ghost use Rattle.input_files.specs.CommandLine.{texts};
ghost use Rattle.debug_cli.specs.Session.{run_with, Debugs, HasServed, IsSessionAnswer, debug_row, debug_row_of};

use crate::answer_status::served_status;
use crate::session_end::SessionEnd;
use debug_link::{PacketWriter, serve};
use debug_walk::Run;
use device_debug::{Interrupts, RunDebugger};
use hmac_core::Sha256Digest;
use input_files::{File, Image, Inputs, Key, Script, Status};
use outside_edge::{Shelf, Sink, Source};
use std::alloc::Global;

/// The files of a debugger, in the order in which they are read.
#[derive(Clone, Copy)]
pub struct DebugFiles<'a> {
    key: File<'a, Key>,
    image: File<'a, Image>,
    script: File<'a, Script>,
}

/// The files that the arguments name, where they spell `debug`.
pub fn debug_files(arguments: &[String]) -> Option<DebugFiles<'_>>
    ensures { option_map (λ found. debug_row found.image.name.now found.script.name.now
        found.key.name.now) result ≡ debug_row_of (texts arguments.now) }
{
    let [command, image, script, key] = arguments else {
        return None;
    };
    if command.as_str() != "debug" {
        return None;
    }
    Some(DebugFiles {
        key: File::new(key.as_str(), Key),
        image: File::new(image.as_str(), Image),
        script: File::new(script.as_str(), Script),
    })
}

/// Runs `debug` with these files.
pub fn run_debug<S: Shelf, R: Source, W: Sink + Drop, I: Interrupts + Drop>(
    alloc: Global,
    files: &DebugFiles<'_>,
    shelf: &mut S,
    source: &mut R,
    sink: W,
    interrupts: I,
) -> (Status, W)
    ensures { IsSessionAnswer S.Shelf R.Source W.Sink shelf.old shelf.new (I.left interrupts)
        (record { source = source.old; sink = sink })
        (record { source = source.new; sink = result.1 })
        (Some (debug_row files.now.image.name.now files.now.script.name.now files.now.key.name.now))
        result.0 }
{
    let inputs = (files.key, (files.image, files.script));
    match inputs.read::<SessionEnd, S>(alloc, shelf) {
        Ok(values) => {
            let (key, (image, script)) = values;
            serve_run(alloc, &key, &image, &script, source, sink, interrupts)
        }
        Err(refusal) => (Status::of_refusal(refusal), sink),
    }
}

// Answers the packets of a source from the beginning of the run that these files say.
fn serve_run<R: Source, W: Sink + Drop, I: Interrupts + Drop>(
    alloc: Global,
    key: &[u8; 64],
    image: &mem_map::Image,
    script: &play_script::Script,
    source: &mut R,
    sink: W,
    interrupts: I,
) -> (Status, W)
    ensures served { HasServed R.Source W.Sink (I.left interrupts)
        (Debugs (run_with key.now (byte_in image.now) script.now))
        (record { source = source.old; sink = sink })
        (record { source = source.new; sink = result.1 }) result.0 }
    ensures source_faults { R.faults source.old ≤ R.faults source.new }
    ensures sink_faults { W.faults sink ≤ W.faults result.1 }
{
    let run = Run::new(key, image, script);
    let Ok(debugger) = RunDebugger::<Sha256Digest, I>::new(alloc, run, interrupts) else {
        return (Status::Memory, sink);
    };
    let mut packets = PacketWriter::new(sink);
    let served = serve(source, debugger, &mut packets);
    (served_status(served), packets.into_sink())
}
