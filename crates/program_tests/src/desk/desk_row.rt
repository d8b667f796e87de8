//! A desk's replies, without a memory.

use crate::attested_device::{EXEC_REGIONS, REQUESTED_IMAGE, image_of};
use crate::desk::mem_files::MemFiles;
use crate::desk::{DEVICE_A, NEVER, run_over};
use crate::inputs::{arguments, named_files};
use desk_cli::run::run;
use input_files::Status;
use outside_edge::{NeverFailShelf, NeverFailSink, NeverFailSource};
use std::test::Fail;

/// The first request of device a.
pub const REQUEST_A: &str = "request a 1 \
1d6811863bf5836c824a7f88a6d85477bdf64954fe486d86b6200df2d54b2bf9 1 token \
fb0b976c0395f06327374f0f0d6e61bb61fd803d63f23ca02d8494542e8d5eeb\n";

#[test]
fn a_line_is_answered_before_its_source_fails(rt: HostRuntime) -> Result<(), Fail> {
    let alloc = rt.alloc();
    let words = ["desk", "keys", "image", "policy"];
    let mut memories = MemFiles::new(alloc, Vec::new(alloc), NEVER);
    let lines = ["ask a 1\nask a 2"];
    let (status, text) = run_over(
        alloc,
        &words,
        (&[DEVICE_A], &[]),
        &mut memories,
        &lines,
        8,
        2,
    )?;
    assert_eq!(rt; status, Status::ReadFault);
    assert_eq!(rt; text.as_slice(), REQUEST_A.as_bytes());
    Ok(())
}

#[test]
fn over_those_that_never_fail_a_desk_answers_all(rt: HostRuntime) -> Result<(), Fail> {
    let alloc = rt.alloc();
    let image = image_of(alloc, REQUESTED_IMAGE)?;
    let files = [
        ("keys", DEVICE_A.as_bytes()),
        ("image", image.as_slice()),
        ("policy", EXEC_REGIONS.as_bytes()),
    ];
    let words = arguments(alloc, &["desk", "keys", "image", "policy"])?;
    let mut shelf = NeverFailShelf::new(named_files(alloc, &files)?, 7);
    let mut source = NeverFailSource::new(b"ask a 1\n".to_vec(alloc)?, 3);
    let mut sink = NeverFailSink::new();
    let mut memories = MemFiles::new(alloc, Vec::new(alloc), NEVER);
    let status = run(
        alloc,
        &words,
        &mut shelf,
        &mut memories,
        &mut source,
        &mut sink,
    );
    assert_eq!(rt; status, Status::Done);
    Ok(())
}
