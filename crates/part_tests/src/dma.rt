ghost use Rattle.std.specs.Prelude.{List};
ghost use Rattle.part_definitions.specs.Dma.{DmaEvent};
ghost use Rattle.device_peripherals.specs.Dma.{DmaStandsFor};

use Act::{Clear, Control, Registers, Start, Step, Write};
use device_peripherals::Dma;
use device_types::{Access, BusMaster};
use word_arith::Size::{self, Byte, Word};

const DCTL: u16 = 0x01E0;

const DSRC: u16 = 0x01E2;

const DDST: u16 = 0x01E4;

const DLEN: u16 = 0x01E6;

// What happens to an engine, and its answer.
#[derive(Clone, Copy, Debug)]
enum Act {
    Start(u16, u16, u16, bool),
    Write(u16, Size, u16),
    Control(u16),
    // What DSRC, DDST and DLEN read.
    Registers(u16, u16, u16),
    // A step in which its access, if there is one, gives a value.
    Step(u16, Option<Access>),
    Clear,
}

// A step in which an access of the engine gives this value.
fn step(dma: &mut Dma, value: u16) -> Option<Access>
    requires { (events : List DmaEvent) × DmaStandsFor dma.old events }
    ensures { (events : List DmaEvent) × DmaStandsFor dma.new events }
{
    let access = dma.ask();
    if access.is_some() {
        dma.take(value);
    }
    access
}

// Whether the engine answers as it should.
fn has_answer(dma: &mut Dma, act: Act) -> bool
    requires { (events : List DmaEvent) × DmaStandsFor dma.old events }
    ensures { (events : List DmaEvent) × DmaStandsFor dma.new events }
{
    match act {
        Start(source, destination, words, starts) => {
            dma.start(source, destination, words) == starts
        }
        Write(place, size, number) => {
            dma.write(place, size, number);
            true
        }
        Control(number) => dma.read(DCTL, Word) == number,
        Registers(source, destination, words) => {
            dma.read(DSRC, Word) == source
                && dma.read(DDST, Word) == destination
                && dma.read(DLEN, Word) == words
        }
        Step(value, access) => step(dma, value) == access,
        Clear => {
            dma.clear();
            true
        }
    }
}

fn reads(place: u16) -> Option<Access> {
    Some(Access::Read(place, Word))
}

fn writes(place: u16, number: u16) -> Option<Access> {
    Some(Access::Write(place, Word, number))
}

#[test]
fn transfers_by_their_starts(rt: HostRuntime) {
    let rows: [&[Act]; 8] = [
        &[
            Start(0xFFFE, 0x0301, 2, true),
            Step(0x1234, reads(0xFFFE)),
            Step(0, writes(0x0300, 0x1234)),
            Step(0x5678, reads(0x0000)),
            Control(1),
            Step(0, writes(0x0302, 0x5678)),
            Control(0),
            Step(0, None),
        ],
        &[
            Write(DSRC, Word, 0x0301),
            Write(DDST, Word, 0x0400),
            Write(DLEN, Word, 1),
            Write(DCTL, Word, 2),
            Step(0, None),
            Write(DCTL + 1, Byte, 1),
            Step(0, None),
            Write(DCTL, Byte, 3),
            Control(1),
            Step(0x1234, reads(0x0300)),
            Step(0, writes(0x0400, 0x1234)),
            Control(0),
        ],
        &[
            Start(0x0300, 0x0400, 1, true),
            Start(0x0500, 0x0600, 1, false),
            Step(0x1234, reads(0x0300)),
            Write(DLEN, Word, 1),
            Write(DCTL, Word, 1),
            Step(0, writes(0x0400, 0x1234)),
            Step(0, None),
        ],
        &[Start(0x0300, 0x0400, 0, true), Control(0), Step(0, None)],
        &[
            Start(0x0300, 0x0400, 1, true),
            Step(0x1234, reads(0x0300)),
            Clear,
            Control(0),
            Step(0, None),
        ],
        &[
            Write(DSRC, Word, 0x0300),
            Write(DLEN, Word, 1),
            Clear,
            Write(DCTL, Word, 1),
            Step(0, None),
        ],
        // a reset clears source and destination too: a transfer of one word is then from 0 to 0
        &[
            Write(DSRC, Word, 0x0300),
            Write(DDST, Word, 0x0400),
            Write(DLEN, Word, 1),
            Registers(0x0300, 0x0400, 1),
            Clear,
            Registers(0, 0, 0),
            Write(DLEN, Word, 1),
            Write(DCTL, Word, 1),
            Step(0x1234, reads(0x0000)),
            Step(0, writes(0x0000, 0x1234)),
            Step(0, None),
        ],
        &[
            Write(DLEN, Word, 1),
            Start(0x0300, 0x0400, 2, true),
            Step(0x1234, reads(0x0300)),
            Step(0, writes(0x0400, 0x1234)),
            Step(0x5678, reads(0x0302)),
            Step(0, writes(0x0402, 0x5678)),
            Write(DCTL, Word, 1),
            Step(0x1234, reads(0x0000)),
            Step(0, writes(0x0000, 0x1234)),
            Step(0, None),
        ],
    ];
    for acts in rows {
        let mut dma = Dma::new();
        for act in acts {
            assert!(rt; has_answer(&mut dma, *act), "{act:?} of {acts:?}");
        }
    }
}

#[test]
fn registers_keep_what_is_written(rt: HostRuntime) {
    let mut dma = Dma::new();
    for &(place, number) in &[(DSRC, 0x1235), (DDST, 0x5679), (DLEN, 0x9ABC)] {
        dma.write(place, Word, number);
        assert_eq!(rt; dma.read(place, Word), number);
        assert_eq!(rt; dma.read(place, Byte), number % 0x100);
        assert_eq!(rt; dma.read(place + 1, Byte), number / 0x100);
    }
    dma.start(0x0300, 0x0400, 2);
    assert_eq!(rt; dma.read(DSRC, Word), 0x1235);
    assert_eq!(rt; dma.read(DDST, Word), 0x5679);
    assert_eq!(rt; dma.read(DLEN, Word), 0x9ABC);
    assert_eq!(rt; dma.read(DLEN + 2, Word), 0);
}
