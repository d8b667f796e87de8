//! The commands of the device over files and byte sinks in memory.

mod collision_row;
mod entry_flag;
mod failing_edge;
mod letter_wave;

use crate::inputs::{arguments, named_files};
use device_cli::run::run;
use input_files::{BadFile, Status};
use outside_edge::{MemShelf, MemSink};
use std::alloc::{AllocError, Global};
use std::test::Fail;
use text_scan::{FaultAt, FaultKind};

/// Sends the letter A, and then jumps to itself.
pub const LETTER_A: &[u8] = b":08C00000B24041007600FF3F51\n:02FFFE0000C041\n:00000001FF\n";

pub const LETTER_A_TEXT: &[u8] = b"tx 4 41\nend 5 pc c006 exec 0\n";

/// The bytes 00 to 3f.
pub const KEY: &[u8] = b"000102030405060708090a0b0c0d0e0f101112131415161718191a1b1c1d1e1f\
202122232425262728292a2b2c2d2e2f303132333435363738393a3b3c3d3e3f\n";

/// The request that a policy says was sent.
pub const ASKED: &str = "ask 000102030405060708090a0b0c0d0e0f101112131415161718191a1b1c1d1e1f 1\n";

// The answer to these words over a shelf that gives 50 bytes in one call and fails in the call of
// this number.
fn answer_over_failing_shelf(
    alloc: Global,
    words: &[&str],
    files: &[(&str, &[u8])],
    call: u64,
) -> Result<Status, AllocError> {
    let files = named_files(alloc, files)?;
    let mut shelf = MemShelf::new(files, 50, [call].to_vec(alloc)?);
    let mut sink = MemSink::new(Vec::new(alloc), 99, 99, Vec::new(alloc))?;
    let arguments = arguments(alloc, words)?;
    Ok(run(alloc, arguments.as_slice(), &mut shelf, &mut sink))
}

// A failing call of the shelf is answered with `ReadFault` up to the last call for the faulty file,
// and after it with the fault of that file. A key takes calls 1 to 4, the image 5 to 7, without an
// end 5 and 6, and a script of one byte 8 and 9. The policy is read last. A row has the image, the
// script, the key, the last call for the faulty file and its fault.
#[test]
fn a_failing_read_hides_no_fault_of_an_earlier_file(rt: HostRuntime) -> Result<(), Fail> {
    let word = FaultAt {
        line: 1,
        kind: FaultKind::Word,
    };
    let missing = FaultAt {
        line: 1,
        kind: FaultKind::Missing,
    };
    let no_end = FaultAt {
        line: 2,
        kind: FaultKind::NoEnd,
    };
    let rows: [(&[u8], &[u8], &[u8], u64, Status); 3] = [
        (
            LETTER_A,
            b"",
            &KEY[1..],
            4,
            Status::Bad(BadFile::Key(missing)),
        ),
        (
            &LETTER_A[..43],
            b"",
            KEY,
            6,
            Status::Bad(BadFile::Image(no_end)),
        ),
        (LETTER_A, b"x", KEY, 9, Status::Bad(BadFile::Script(word))),
    ];
    for &(image, script, key, last, fault) in &rows {
        let files: [(&str, &[u8]); 4] = [("i", image), ("s", script), ("k", key), ("p", b"")];
        for call in 1..14u64 {
            let status = if call > last {
                fault
            } else {
                Status::ReadFault
            };
            let words = ["round", "i", "s", "k", "p", "5"];
            let answer = answer_over_failing_shelf(rt.alloc(), &words, &files, call)?;
            assert_eq!(rt; answer, status, "call {call}, with {fault}");
        }
    }
    Ok(())
}
