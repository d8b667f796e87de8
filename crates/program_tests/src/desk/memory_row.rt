//! What is answered over a memory that fails, and why there is none.

use crate::desk::desk_row::REQUEST_A;
use crate::desk::mem_files::MemFiles;
use crate::desk::{DEVICE_A, NEVER, WITH_MEMORY, run_over};
use crate::inputs::text_of;
use desk_cli::read_states;
use desk_database::MemoryFileFault;
use desk_memory::{Entry, copy_of};
use input_files::{Status, Unfit};
use std::alloc::{AllocError, Global};
use std::test::Fail;

// Device a after its first report was accepted.
const STATE_A: &str = "state2 a moves 0 key 49eb32738b5bf562be8b6533a98fa128 count 1 \
outstanding none last 2 verdict accept\n";

// Device b after its second request.
const STATE_B: &str = "state2 b moves 3 key 595692e4fea211c8202bb0dab5c57beb count 2 \
outstanding 2 last 7 request 2\n";

// The entries of these lines.
fn entries_of(alloc: Global, lines: &[&str]) -> Result<Vec<Entry>, AllocError> {
    match read_states(alloc, &text_of(alloc, lines)?) {
        Ok(states) => copy_of(alloc, states.as_slice()),
        Err(_) => Ok(Vec::new(alloc)),
    }
}

// What these words answer and put over a memory of these states whose call of this number fails,
// where one of the device's lines is taken.
fn over(
    alloc: Global,
    words: &[&str],
    states: &[&str],
    failing: u64,
) -> Result<(Status, Vec<u8>), AllocError> {
    let mut memories = MemFiles::new(alloc, entries_of(alloc, states)?, failing);
    let texts: (&[&str], &[&str]) = (&[DEVICE_A], &[STATE_A, STATE_B]);
    run_over(
        alloc,
        words,
        texts,
        &mut memories,
        &["ask a 1\n"],
        4_096,
        NEVER,
    )
}

// The first call notes, the second settles.
#[test]
fn no_reply_is_put_where_its_state_is_not_kept(rt: HostRuntime) -> Result<(), Fail> {
    for failing in [1, 2] {
        let (status, text) = over(rt.alloc(), &WITH_MEMORY, &[], failing)?;
        assert_eq!(rt; status, Status::Unwritten);
        assert!(rt; text.is_empty());
    }
    let (status, text) = over(rt.alloc(), &WITH_MEMORY, &[], 3)?;
    assert_eq!(rt; status, Status::Done);
    assert_eq!(rt; text.as_slice(), REQUEST_A.as_bytes());
    Ok(())
}

#[test]
fn states_are_remembered_whole_or_not_at_all(rt: HostRuntime) -> Result<(), Fail> {
    let words = ["remember", "states", "memory", "north"];
    for failing in [NEVER, 1, 2, 3, 4] {
        let (status, _) = over(rt.alloc(), &words, &[], failing)?;
        let answer = match failing {
            1..=3 => Status::Unwritten,
            _ => Status::Done,
        };
        assert_eq!(rt; status, answer);
    }
    Ok(())
}

#[test]
fn no_line_is_put_before_a_move_is_kept(rt: HostRuntime) -> Result<(), Fail> {
    for failing in [1, 2] {
        let words = ["move", "memory", "b", "south"];
        let (status, text) = over(rt.alloc(), &words, &[STATE_B], failing)?;
        assert_eq!(rt; status, Status::Unwritten);
        assert!(rt; text.is_empty());
    }
    Ok(())
}

#[test]
fn a_memory_that_is_not_opened_has_its_answer(rt: HostRuntime) -> Result<(), Fail> {
    let alloc = rt.alloc();
    let rows = [
        (MemoryFileFault::Place, Status::Unwritten),
        (MemoryFileFault::InUse, Status::InUse),
        (
            MemoryFileFault::HotJournal,
            Status::BadMemory(Unfit::Foreign),
        ),
        (MemoryFileFault::Missing, Status::BadMemory(Unfit::Missing)),
        (
            MemoryFileFault::Unfounded,
            Status::BadMemory(Unfit::Unfounded),
        ),
        (MemoryFileFault::Founded, Status::BadMemory(Unfit::Founded)),
        (
            MemoryFileFault::OtherLog,
            Status::BadMemory(Unfit::OtherLog),
        ),
        (MemoryFileFault::Foreign, Status::BadMemory(Unfit::Foreign)),
        (MemoryFileFault::Disk, Status::Unwritten),
        (MemoryFileFault::Full, Status::Unwritten),
        (MemoryFileFault::OutOfMemory, Status::Memory),
    ];
    for &(fault, answer) in &rows {
        for words in [
            WITH_MEMORY.as_slice(),
            &["states", "memory"],
            &["found", "memory", "north"],
            &["remember", "states", "memory", "north"],
            &["move", "memory", "a", "south"],
            &["adopt", "states", "memory"],
        ] {
            let mut memories = MemFiles::refused(alloc, fault);
            let lines = ["ask a 1\n"];
            let (status, text) = run_over(
                alloc,
                words,
                (&[DEVICE_A], &[]),
                &mut memories,
                &lines,
                9,
                NEVER,
            )?;
            assert_eq!(rt; status, answer);
            assert!(rt; text.is_empty());
        }
    }
    Ok(())
}
