//! Each command over a shelf and a sink that fail in one call, and over those that never fail.

use crate::attested_device::{EXEC_REGIONS, REQUESTED_IMAGE, image_of};
use crate::device::letter_wave::LETTER_A_WAVE;
use crate::device::{ASKED, KEY, LETTER_A, LETTER_A_TEXT};
use crate::inputs::{named_files, text_of};
use device_cli::run::run;
use input_files::Status;
use input_files::Status::{Done, ReadFault, Rejected, WriteFault};
use line_buffer::LineBuffer;
use outside_edge::{MemShelf, MemSink, NeverFailShelf, NeverFailSink};
use std::alloc::{AllocError, Global};
use std::test::Fail;

// A challenge, the bounds, the counter 1, and the request's token.
const REQUEST: &str = "at 0 rx 000102030405060708090a0b0c0d0e0f101112131415161718191a1b1c1d1e1f\
40c046c000030003000000000100000051f31fb98405936d5493a5fec2a264d0\n\
at 0 p1 1234\n\
at 400 rx df1c3115ed86d8405e886d527d5cd5a5\n";

const REPORT: &str = "report2 1189 exec 1 aux 1 count 1 \
chal 000102030405060708090a0b0c0d0e0f101112131415161718191a1b1c1d1e1f \
er c040 c046 or 0300 0300 data 3412 \
mac 0a6cb1d8de6cda256d7ef098455278d3e87e89901f1f2e84d600968408c2b35d\n";

const SOURCE: &[u8] =
    b".org 0xC000\nstart: mov #0x41,&0x76\nstop: jmp stop\n.org 0xFFFE\n.word start\n";

const LETTER_A_LISTING: &[u8] =
    b"c000: mov #0x0041,&0x0076\nc006: jmp 0xc006\nfffe: .word 0xc000\n";

// The trace file of two steps of the letter A.
const LETTER_A_TRACE: &str = "\
t 0 boot 0000 rfffe - 0 0 0000 c000 0000 0000 0000 0000 0000 0 -\n\
t 1 cpu c000 fc000 - 0 0 40b2 40b2 0000 0000 0000 0000 0000 0 -\n";

// The line of the request with the counter 1. The token is from another program (HMAC of Python's
// library).
const REQUEST_LINE: &str = "request \
000102030405060708090a0b0c0d0e0f101112131415161718191a1b1c1d1e1f 1 token \
51f31fb98405936d5493a5fec2a264d0df1c3115ed86d8405e886d527d5cd5a5\n";

// What a round prints behind its report.
const ACCEPT_TEXT: &str = "verdict 1 accept\nend 1192 pc c026 exec 1\n";

// The image of the device whose report of version 1 is kept: its region copies the pins.
const MEASURED_IMAGE: &str = ":10C000003140002232C23540400292B37200FD2717\n\
:10C01000D54274000000155335906002F623B240FB\n\
:10C0200040C06002B24046C06202B24000036402F7\n\
:10C03000B24000036602B01240C0B01200A0FF3F41\n\
:08C04000924220000003304190\n";

// A report of version 1, whose MAC is from another program (HMAC of Python's library).
const KEPT_REPORT: &str = "report 557 exec 1 \
     chal 000102030405060708090a0b0c0d0e0f101112131415161718191a1b1c1d1e1f \
     er c040 c046 or 0300 0300 data 3412 \
     mac 284a196506045ee45937fae57138147665e982308b52f63a952bbf1f9e18063c\n";

const POLICY: &[u8] = b"er C040 C046\nor 0300 0300\n\
     chal 000102030405060708090a0b0c0d0e0f101112131415161718191a1b1c1d1e1f\n";

const VERDICTS: &[u8] = b"verdict 1 accept\nverdict 2 no-challenge\n";

// The number of a call that does not come.
const NEVER: u64 = 0;

// What no constant has: the images of a device of version 1 and of one that plays, reports of the
// first, the policy of a round, and the texts of a dump and of a round.
#[derive(Drop)]
struct Sample {
    image: Vec<u8>,
    requested: Vec<u8>,
    reports: Vec<u8>,
    asked: Vec<u8>,
    dump: Vec<u8>,
    round: Vec<u8>,
}

// A command line, how often it reads its files where a call gives 50 bytes, and what is answered
// and put where nothing fails.
#[derive(Clone, Copy)]
struct Row<'a> {
    words: &'a str,
    reads: u64,
    status: Status,
    text: &'a [u8],
}

impl Sample {
    fn new(alloc: Global) -> Result<Sample, AllocError> {
        let mut dump = LETTER_A_TEXT.to_vec(alloc)?;
        dump.extend_from_slice(&letter_memory(alloc)?)?;
        Ok(Sample {
            image: image_of(alloc, MEASURED_IMAGE)?,
            requested: image_of(alloc, REQUESTED_IMAGE)?,
            reports: text_of(alloc, &[KEPT_REPORT, KEPT_REPORT])?,
            asked: text_of(alloc, &[EXEC_REGIONS, ASKED])?,
            dump,
            round: text_of(alloc, &[REPORT, ACCEPT_TEXT])?,
        })
    }

    fn files(&self) -> [(&str, &[u8]); 11] {
        [
            ("letter", LETTER_A),
            ("silence", b""),
            ("key", KEY),
            ("image", &self.image),
            ("requested", &self.requested),
            ("script", REQUEST.as_bytes()),
            ("policy", POLICY),
            ("asked", &self.asked),
            ("reports", &self.reports),
            ("source", SOURCE),
            ("trace", LETTER_A_TRACE.as_bytes()),
        ]
    }

    // A file of n bytes is read in its pieces and once more at its end: the key of 129 bytes in 4
    // calls, the images of 232 in 6 and of 172 in 5, the script of 193 in 5, the policies of 96 in
    // 3 and of 117 in 4, the reports of 386 in 9, the trace of 129 in 4.
    fn rows(&self) -> [Row<'_>; 11] {
        let row = |words, reads, status, text| Row {
            words,
            reads,
            status,
            text,
        };
        [
            row("play letter silence key 5", 8, Done, LETTER_A_TEXT),
            row("dump letter silence key 5", 8, Done, &self.dump),
            row(
                "trace letter silence key 2",
                8,
                Done,
                LETTER_A_TRACE.as_bytes(),
            ),
            row(
                "wave letter silence key 2",
                8,
                Done,
                LETTER_A_WAVE.as_bytes(),
            ),
            row("list letter", 3, Done, LETTER_A_LISTING),
            row("verify image policy key reports", 22, Rejected, VERDICTS),
            row(
                "verify --all image policy key silence",
                14,
                Rejected,
                b"unanswered 1\n",
            ),
            row("audit trace", 4, Done, b"clean 2\n"),
            row(
                "round requested script key asked 1192",
                18,
                Done,
                &self.round,
            ),
            row("asm source", 3, Done, LETTER_A),
            row(
                "request key \
                000102030405060708090a0b0c0d0e0f101112131415161718191a1b1c1d1e1f 1",
                4,
                Done,
                REQUEST_LINE.as_bytes(),
            ),
        ]
    }
}

// The record of 16 bytes at this place.
fn record(alloc: Global, place: u16, bytes: &[u8; 16]) -> Result<Vec<u8>, AllocError> {
    let [high, low] = place.to_be_bytes();
    let mut sum = 16u8.wrapping_add(high).wrapping_add(low);
    let mut digits = LineBuffer::new();
    digits.push_hex(&[16, high, low, 0]);
    for byte in bytes {
        sum = sum.wrapping_add(*byte);
    }
    digits.push_hex(bytes);
    digits.push_byte(sum.wrapping_neg());
    let mut line = b":".to_vec(alloc)?;
    for digit in digits.as_slice() {
        line.push(digit.to_ascii_uppercase())?;
    }
    Ok(line)
}

// The memory after the letter A as Intel HEX: its image, and 0 elsewhere.
fn letter_memory(alloc: Global) -> Result<Vec<u8>, AllocError> {
    let mut text = Vec::new(alloc);
    // 512 records from 0200 on, and 1,024 from C000 on.
    for number in 0..1536u16 {
        let place = if number < 512 {
            0x0200 + 16 * number
        } else {
            0xC000 + 16 * (number - 512)
        };
        let bytes = match place {
            0xC000 => [
                0xB2, 0x40, 0x41, 0, 0x76, 0, 0xFF, 0x3F, 0, 0, 0, 0, 0, 0, 0, 0,
            ],
            0xFFF0 => [0, 0, 0, 0, 0, 0, 0, 0, 0, 0, 0, 0, 0, 0, 0, 0xC0],
            _ => [0; 16],
        };
        text.extend_from_slice(&record(alloc, place, &bytes)?)?;
        text.push(b'\n')?;
    }
    text.extend_from_slice(b":00000001FF\n")?;
    Ok(text)
}

fn words_of(alloc: Global, line: &str) -> Result<Vec<String>, AllocError> {
    let mut words = Vec::new(alloc);
    for word in line.split_ascii_whitespace() {
        words.push(String::from_str(alloc, word)?)?;
    }
    Ok(words)
}

// What is answered and put where the calls of these numbers fail, over a shelf that gives 50 bytes
// and a sink that takes one byte in a call.
fn run_failing(
    alloc: Global,
    words: &str,
    files: &[(&str, &[u8])],
    failing_read: u64,
    failing_put: u64,
) -> Result<(Status, Vec<u8>), AllocError> {
    let mut shelf = MemShelf::new(
        named_files(alloc, files)?,
        50,
        [failing_read].to_vec(alloc)?,
    );
    let mut sink = MemSink::new(Vec::new(alloc), 200_000, 1, [failing_put].to_vec(alloc)?)?;
    let words = words_of(alloc, words)?;
    let status = run(alloc, &words, &mut shelf, &mut sink);
    Ok((status, sink.as_bytes().to_vec(alloc)?))
}

// Among them is the second of the four reads of the policy in a round, between two that succeed.
#[test]
fn a_failing_read_of_any_command_puts_nothing(rt: HostRuntime) -> Result<(), Fail> {
    let alloc = rt.alloc();
    let sample = Sample::new(alloc)?;
    let files = sample.files();
    for row in sample.rows() {
        for read in 0..row.reads {
            let call = read + 1;
            let (status, output) = run_failing(alloc, row.words, &files, call, NEVER)?;
            assert_eq!(rt; status, ReadFault, "read {call} of {}", row.words);
            assert_eq!(rt; output.len(), 0, "read {call} of {}", row.words);
        }
        let (status, output) = run_failing(
            alloc,
            row.words,
            &files,
            row.reads.saturating_add(1),
            NEVER,
        )?;
        assert_eq!(rt; status, row.status, "{}", row.words);
        assert_eq!(rt; output.as_slice(), row.text, "{}", row.words);
    }
    Ok(())
}

// Whether the put after so many bytes of a text is made to fail: each one of a short text, and of
// a long one the first, the last, and some between them.
fn is_tried(count: usize, length: usize) -> bool {
    let rest = length.saturating_sub(count);
    length < 100 || count < 10 || count % (1 + length / 8) == 0 || rest < 3
}

#[test]
fn a_failing_put_of_any_command_leaves_a_prefix(rt: HostRuntime) -> Result<(), Fail> {
    let alloc = rt.alloc();
    let sample = Sample::new(alloc)?;
    let files = sample.files();
    for row in sample.rows() {
        let length = row.text.len();
        for count in 0..length {
            if is_tried(count, length) {
                let call = count as u64 + 1;
                let (status, output) = run_failing(alloc, row.words, &files, NEVER, call)?;
                assert_eq!(rt; status, WriteFault, "put {call} of {}", row.words);
                assert_eq!(rt;
                    output.as_slice(),
                    &row.text[..count],
                    "put {call} of {}",
                    row.words
                );
            }
        }
        let call = (length as u64).saturating_add(1);
        let (status, output) = run_failing(alloc, row.words, &files, NEVER, call)?;
        assert_eq!(rt; status, row.status, "{}", row.words);
        assert_eq!(rt; output.as_slice(), row.text, "{}", row.words);
    }
    Ok(())
}

// The faults can't come: their arm is proved to be out of reach.
#[test]
fn over_those_that_never_fail_no_fault_is_answered(rt: HostRuntime) -> Result<(), Fail> {
    let alloc = rt.alloc();
    let sample = Sample::new(alloc)?;
    for row in sample.rows() {
        let words = words_of(alloc, row.words)?;
        let mut shelf = NeverFailShelf::new(named_files(alloc, &sample.files())?, 7);
        let mut sink = NeverFailSink::new();
        match run(alloc, &words, &mut shelf, &mut sink) {
            ReadFault | WriteFault => unreachable!(),
            status => assert_eq!(rt; status, row.status, "{}", row.words),
        }
    }
    Ok(())
}
