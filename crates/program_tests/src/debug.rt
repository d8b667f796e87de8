//! The debugger, and a device that lives, over files, a source and a byte sink in memory. What a
//! debugger puts is from another program, a model of the packets.

ghost use Rattle.std.specs.Prelude.{◌≤◌};

use crate::inputs::{arguments, named_files};
use debug_cli::run::run;
use device_debug::Interrupts;
use input_files::Status;
use outside_edge::{MemShelf, MemSink, MemSource, NeverFailShelf, NeverFailSink, NeverFailSource};
use std::alloc::{AllocError, Global};
use std::test::Fail;

// It sends the letter A and then jumps to itself.
const IMAGE: &str = ":08C00000B24041007600FF3F51\n:02FFFE0000C041\n:00000001FF\n";

const KEY: &str = "000102030405060708090a0b0c0d0e0f101112131415161718191a1b1c1d1e1f\
202122232425262728292a2b2c2d2e2f303132333435363738393a3b3c3d3e3f\n";

const WORDS: [&str; 4] = ["debug", "image", "script", "key"];

// Registers, one step with its line, the bytes 0072 to 0079, one step back, and the end.
const PACKETS: &[u8] = b"$g#67$s#73$m72,8#3a$bs#d5$k#6b$g#67";

const ANSWERS: &[u8] = b"+$00c00000000000000000000000000000000000000000000000000000000000000\
000000000000000000000000000000000000000000000000000000000000000#33\
+$O747820342034310a#b0$T05#b9+$0000000000000000#00+$T05#b9+";

const LIVE_WORDS: [&str; 3] = ["live", "image", "key"];

// The letter is sent in step 4. A step that was made is not made again, and nothing comes in it;
// port 1 reads what it is set to.
const LINES: &[u8] =
    b"at 5 p1 1234\nrun 5\nregisters\nrun 4\nat 4 rx 42\nrun 6\nmemory 0020 2\nwait";

const LINE_ANSWERS: &[u8] = b"tx 4 41\nat 5 pc c006 exec 0\n\
registers c006 0000 0000 0000 0000 0000 0000 0000 0000 0000 0000 0000 0000 0000 0000 0000\n\
refused 4 Order\nrefused 5 Order\nat 6 pc c006 exec 0\nmemory 0020 3412\nrefused 8 Word\n\
end 6 pc c006 exec 0\n";

// From place 1 the first look for an interrupt is due behind 65,536 steps: `monitor until 200000`,
// `continue` twice, `monitor steps`, and the end.
const WAY_AHEAD: &[u8] = b"$qRcmd,756e74696c20323030303030#53$c#63$c#63$qRcmd,7374657073#34$k#6b";

// One that is interrupted goes on to where it would have stopped.
const WAY_AHEAD_ANSWERS: &[u8] = b"+$OK#9a+$O747820342034310a#b0$T02#b6+$T05#b9\
+$O323030303030207374657073206f662031303030303030300a#8c$OK#9a+";

// Going back from place 5,000 the first look is due behind 4,096 steps: `monitor until 5000`,
// `continue`, then twice `reverse-continue` and `monitor steps`, and the end.
const WAY_BACK: &[u8] = b"$qRcmd,756e74696c2035303030#90$c#63\
$bc#c5$qRcmd,7374657073#34$bc#c5$qRcmd,7374657073#34$k#6b";

// One that is interrupted stays where it was.
const WAY_BACK_ANSWERS: &[u8] = b"+$OK#9a+$O747820342034310a#b0$T05#b9\
+$T02#b6+$O35303030207374657073206f662031303030303030300a#c9$OK#9a\
+$T05replaylog:begin;#02+$O31207374657073206f662031303030303030300a#9c$OK#9a+";

// An interrupt that the look of this number finds, from 1 on; none at 0.
#[derive(Drop)]
struct AtLook(u64);

impl Interrupts for AtLook {
    ghost use Rattle.std.specs.Prelude.{Some, min};

    ghost left = { λ it. Some (min 1 it.0) };

    fn have_come(&mut self) -> bool {
        let has_come = self.0 == 1;
        self.0 = self.0.saturating_sub(1);
        has_come
    }
}

// What is answered to these words and put, with this input, of which so many bytes
// come in one call, where the calls of source and sink of these numbers fail.
fn served(
    alloc: Global,
    words: &[&str],
    input: &[u8],
    most: usize,
    unread: &[u64],
    unwritten: &[u64],
) -> Result<(Status, Vec<u8>), AllocError>
    requires { 1 ≤ most }
{
    let source = MemSource::new(input.to_vec(alloc)?, most, unread.to_vec(alloc)?);
    let sink = MemSink::new(Vec::new(alloc), 1_000, 64, unwritten.to_vec(alloc)?)?;
    served_over(alloc, words, source, sink, AtLook(0))
}

// Likewise over this source and this sink, and with this interrupt.
fn served_over(
    alloc: Global,
    words: &[&str],
    mut source: MemSource,
    sink: MemSink,
    interrupt: AtLook,
) -> Result<(Status, Vec<u8>), AllocError> {
    let files = [
        ("image", IMAGE.as_bytes()),
        ("script", b"".as_slice()),
        ("key", KEY.as_bytes()),
    ];
    let words = arguments(alloc, words)?;
    let mut shelf = MemShelf::new(named_files(alloc, &files)?, 4_096, Vec::new(alloc));
    let (status, sink) = run(alloc, &words, &mut shelf, &mut source, sink, interrupt);
    Ok((status, sink.as_bytes().to_vec(alloc)?))
}

#[test]
fn packets_are_answered(rt: HostRuntime) -> Result<(), Fail> {
    for most in [1, 7, 4_096] {
        let (status, text) = served(rt.alloc(), &WORDS, PACKETS, most, &[], &[])?;
        assert_eq!(rt; status, Status::Done);
        assert_eq!(rt; text.as_slice(), ANSWERS);
    }
    Ok(())
}

#[test]
fn an_interrupt_ends_a_way(rt: HostRuntime) -> Result<(), Fail> {
    let alloc = rt.alloc();
    for (input, answers) in [(WAY_AHEAD, WAY_AHEAD_ANSWERS), (WAY_BACK, WAY_BACK_ANSWERS)] {
        let source = MemSource::new(input.to_vec(alloc)?, 4_096, Vec::new(alloc));
        let sink = MemSink::new(Vec::new(alloc), 1_000, 64, Vec::new(alloc))?;
        let (status, text) = served_over(alloc, &WORDS, source, sink, AtLook(1))?;
        assert_eq!(rt; status, Status::Done);
        assert_eq!(rt; text.as_slice(), answers);
    }
    Ok(())
}

#[test]
fn lines_are_answered(rt: HostRuntime) -> Result<(), Fail> {
    for most in [1, 7, 4_096] {
        let (status, text) = served(rt.alloc(), &LIVE_WORDS, LINES, most, &[], &[])?;
        assert_eq!(rt; status, Status::Done);
        assert_eq!(rt; text.as_slice(), LINE_ANSWERS);
    }
    Ok(())
}

#[test]
fn a_prefix_is_put_before_a_fault(rt: HostRuntime) -> Result<(), Fail> {
    let (status, text) = served(rt.alloc(), &WORDS, PACKETS, 9, &[2], &[])?;
    assert_eq!(rt; status, Status::ReadFault);
    assert_eq!(rt; text.as_slice(), &ANSWERS[..133]);
    let (status, text) = served(rt.alloc(), &WORDS, PACKETS, 4_096, &[], &[2])?;
    assert_eq!(rt; status, Status::WriteFault);
    assert_eq!(rt; text.as_slice(), b"+".as_slice());
    Ok(())
}

// The faults can't come: their arm is proved to be out of reach.
#[test]
fn over_those_that_never_fail_all_is_answered(rt: HostRuntime) -> Result<(), Fail> {
    let alloc = rt.alloc();
    let files = [
        ("image", IMAGE.as_bytes()),
        ("script", b"".as_slice()),
        ("key", KEY.as_bytes()),
    ];
    let words = arguments(alloc, &WORDS)?;
    let mut shelf = NeverFailShelf::new(named_files(alloc, &files)?, 7);
    let mut source = NeverFailSource::new(PACKETS.to_vec(alloc)?, 3);
    let sink = NeverFailSink::new();
    let (status, _) = run(alloc, &words, &mut shelf, &mut source, sink, AtLook(0));
    match status {
        Status::ReadFault | Status::WriteFault => unreachable!(),
        status => assert_eq!(rt; status, Status::Done),
    }
    Ok(())
}
