use Act::{Arrive, Clear, Read, Request, Write};
use device_peripherals::Serial;
use std::test::Fail;
use word_arith::Size::{self, Byte, Word};

const SCTL: u16 = 0x0070;

const SSTAT: u16 = 0x0072;

const SRXD: u16 = 0x0074;

const STXD: u16 = 0x0076;

// What happens to a port, and its answer.
#[derive(Clone, Copy, Debug)]
enum Act {
    Arrive(u8),
    Read(u16, Size, u16),
    Write(u16, Size, u16, Option<u8>),
    Request(bool),
    Clear,
}

// Whether the port answers as it should.
fn has_answer(port: &mut Serial, act: Act) -> bool {
    match act {
        Arrive(byte) => port.arrive(byte),
        Read(place, size, number) => {
            port.peek(place, size) == number && port.read(place, size) == number
        }
        Write(place, size, number, is_sent) => port.write(place, size, number) == is_sent,
        Request(asks) => port.request() == asks,
        Clear => {
            port.clear();
            true
        }
    }
}

#[test]
fn answers_in_order(rt: HostRuntime) -> Result<(), Fail> {
    let rows: [&[Act]; 8] = [
        &[Read(SSTAT, Word, 0), Read(SRXD, Word, 0), Request(false)],
        &[
            Arrive(0x41),
            Arrive(0x42),
            Read(SSTAT, Word, 1),
            Read(SRXD, Word, 0x41),
            Read(SRXD, Byte, 0x42),
            Read(SRXD, Word, 0),
            Read(SSTAT, Word, 0),
        ],
        &[
            Arrive(0x41),
            Read(SRXD + 1, Byte, 0),
            Read(SRXD, Byte, 0x41),
        ],
        &[
            Arrive(0x41),
            Read(SRXD + 1, Word, 0x41),
            Read(SSTAT, Byte, 0),
        ],
        &[
            Arrive(0x41),
            Request(false),
            Write(SCTL, Word, 0xFFFF, None),
            Read(SCTL, Word, 1),
            Request(true),
            Write(SCTL + 1, Byte, 0, None),
            Request(true),
            Read(SRXD, Word, 0x41),
            Request(false),
        ],
        &[
            Write(STXD, Word, 0x1241, Some(0x41)),
            Write(STXD, Byte, 0x42, Some(0x42)),
            Write(STXD + 1, Byte, 0x43, None),
            Write(STXD + 1, Word, 0x1244, Some(0x44)),
            Read(STXD, Word, 0),
        ],
        &[
            Arrive(0x41),
            Write(SRXD, Word, 0x42, None),
            Write(SSTAT, Word, 0, None),
            Read(SRXD, Word, 0x41),
        ],
        &[
            Arrive(0x41),
            Write(SCTL, Word, 1, None),
            Clear,
            Request(false),
            Read(SCTL, Word, 0),
            Read(SSTAT, Word, 0),
            Read(SRXD, Word, 0),
        ],
    ];
    for &acts in &rows {
        let mut port = Serial::new(rt.alloc())?;
        for act in acts {
            assert!(rt; has_answer(&mut port, *act), "{act:?} of {acts:?}");
        }
    }
    Ok(())
}

#[test]
fn drops_the_65th_byte(rt: HostRuntime) -> Result<(), Fail> {
    let mut port = Serial::new(rt.alloc())?;
    for byte in 1..=64 {
        assert!(rt; port.arrive(byte));
    }
    assert_eq!(rt; port.read(SSTAT, Word), 1);
    assert!(rt; !port.arrive(65));
    assert_eq!(rt; port.read(SSTAT, Word), 3);
    port.write(SSTAT + 1, Byte, 0);
    assert_eq!(rt; port.read(SSTAT, Word), 3);
    port.write(SSTAT, Byte, 0xFF);
    assert_eq!(rt; port.read(SSTAT, Word), 1);
    for byte in 1..=64 {
        assert_eq!(rt; port.read(SRXD, Word), byte);
    }
    assert_eq!(rt; port.read(SSTAT, Word), 0);
    for byte in 1..=65 {
        port.arrive(byte);
    }
    port.clear();
    assert_eq!(rt; port.read(SSTAT, Word), 0);
    Ok(())
}
