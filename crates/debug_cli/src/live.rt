ghost use Rattle.std.specs.Prelude.{◌≡◌, ◌≤◌, ℕ, None, Option, Some, option_map};
ghost use Rattle.mem_map.specs.Image.{byte_in};
ghost use Rattle.input_files.specs.CommandLine.{texts};
ghost use Rattle.debug_cli.specs.Session.{start_with, HasServed, IsSessionAnswer, Lives, live_row, live_row_of};

use crate::answer_status::served_status;
use crate::session_end::SessionEnd;
use device_core::power_on;
use device_live::serve_lines;
use execution_flags::AuxFlag;
use hmac_core::Sha256Digest;
use input_files::{File, Image, Inputs, Key, Status};
use outside_edge::{Shelf, Sink, Source};
use source_server::HeldLine;
use std::alloc::Global;

/// The files of a device, in the order in which they are read.
#[derive(Clone, Copy)]
pub struct LiveFiles<'a> {
    key: File<'a, Key>,
    image: File<'a, Image>,
}

/// The files that the arguments name, where they spell `live`.
pub fn live_files(arguments: &[String]) -> Option<LiveFiles<'_>>
    ensures { option_map (λ found. live_row found.image.name.now found.key.name.now) result
        ≡ live_row_of (texts arguments.now) }
{
    let [command, image, key] = arguments else {
        return None;
    };
    if command.as_str() != "live" {
        return None;
    }
    Some(LiveFiles {
        key: File::new(key.as_str(), Key),
        image: File::new(image.as_str(), Image),
    })
}

/// Runs `live` with these files.
pub fn run_live<S: Shelf, R: Source, W: Sink + Drop>(
    alloc: Global,
    files: &LiveFiles<'_>,
    shelf: &mut S,
    source: &mut R,
    sink: W,
) -> (Status, W)
    ensures { (left : Option ℕ) → IsSessionAnswer S.Shelf R.Source W.Sink shelf.old shelf.new left
        (record { source = source.old; sink = sink })
        (record { source = source.new; sink = result.1 })
        (Some (live_row files.now.image.name.now files.now.key.name.now)) result.0 }
{
    let inputs = (files.key, files.image);
    match inputs.read::<SessionEnd, S>(alloc, shelf) {
        Ok(values) => {
            let (key, image) = values;
            serve_life(alloc, &key, &image, source, sink)
        }
        Err(refusal) => (Status::of_refusal(refusal), sink),
    }
}

// Answers the lines of a source from the power-on of the device that these files say.
fn serve_life<R: Source, W: Sink + Drop>(
    alloc: Global,
    key: &[u8; 64],
    image: &mem_map::Image,
    source: &mut R,
    sink: W,
) -> (Status, W)
    ensures served { HasServed R.Source W.Sink None
        (Lives (start_with key.now (byte_in image.now)))
        (record { source = source.old; sink = sink })
        (record { source = source.new; sink = result.1 }) result.0 }
    ensures source_faults { R.faults source.old ≤ R.faults source.new }
    ensures sink_faults { W.faults sink ≤ W.faults result.1 }
{
    let Ok(device) = power_on::<Sha256Digest, AuxFlag>(alloc, key, image, AuxFlag::new()) else {
        return (Status::Memory, sink);
    };
    let Ok(held) = HeldLine::new(alloc) else {
        return (Status::Memory, sink);
    };
    let (served, sink) = serve_lines(alloc, device, held, source, sink);
    (served_status(served), sink)
}
