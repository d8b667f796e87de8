//! The commands of the desk over files, a memory, lines and a byte sink in memory. Marks,
//! challenges, tokens and MACs are from another program (HMAC of Python's library).

mod desk_row;
mod mem_files;
mod memory_row;

ghost use Rattle.std.specs.Prelude.{◌≤◌};

use crate::attested_device::{EXEC_REGIONS, REQUESTED_IMAGE, image_of};
use crate::desk::mem_files::MemFiles;
use crate::inputs::{arguments, named_files, text_of};
use desk_cli::run::run;
use input_files::Status;
use outside_edge::{MemShelf, MemSink, MemSource};
use std::alloc::{AllocError, Global};

/// A device with the key 00 to 3f.
pub const DEVICE_A: &str =
    "device a 000102030405060708090a0b0c0d0e0f101112131415161718191a1b1c1d1e1f\
202122232425262728292a2b2c2d2e2f303132333435363738393a3b3c3d3e3f\n";

/// The number of a call that does not come.
pub const NEVER: u64 = 0;

/// The words that name the files of `run_over`, with a memory.
pub const WITH_MEMORY: [&str; 5] = ["desk", "keys", "image", "policy", "memory"];

/// What is answered and put, over this file of keys, this text of states, a memory and these lines,
/// of which so many bytes come in one call and the call of this number fails.
pub fn run_over(
    alloc: Global,
    words: &[&str],
    texts: (&[&str], &[&str]),
    memories: &mut MemFiles,
    lines: &[&str],
    most: usize,
    failing: u64,
) -> Result<(Status, Vec<u8>), AllocError>
    requires { 1 ≤ most }
{
    let keys = text_of(alloc, texts.0)?;
    let states = text_of(alloc, texts.1)?;
    let image = image_of(alloc, REQUESTED_IMAGE)?;
    let files = [
        ("keys", keys.as_slice()),
        ("image", image.as_slice()),
        ("policy", EXEC_REGIONS.as_bytes()),
        ("states", states.as_slice()),
        ("memory", b"".as_slice()),
    ];
    let words = arguments(alloc, words)?;
    let mut shelf = MemShelf::new(named_files(alloc, &files)?, 4096, Vec::new(alloc));
    let mut source = MemSource::new(text_of(alloc, lines)?, most, [failing].to_vec(alloc)?);
    let mut sink = MemSink::new(Vec::new(alloc), 10_000, 64, Vec::new(alloc))?;
    let status = run(alloc, &words, &mut shelf, memories, &mut source, &mut sink);
    Ok((status, sink.as_bytes().to_vec(alloc)?))
}
