//! Writers as sinks.

use crate::outside::error_of;
use outside_edge::{Failed, Sink, StdSink};
use std::io;
use std::io::Write;

// A writer of a piece of memory takes what it has room for, and then says that it takes nothing.
#[test]
fn a_writer_takes_bytes_until_it_takes_nothing_of_a_piece(rt: HostRuntime) {
    let mut room = *b"..........";
    let mut sink = StdSink::new(&mut room[..7]);
    assert_eq!(rt; sink.put(b"0123"), Ok(4));
    assert_eq!(rt; sink.put(b"45678"), Ok(3));
    assert_eq!(rt; sink.put(b""), Ok(0));
    assert_eq!(rt; sink.put(b"7"), Err(Failed));
    drop(sink);
    assert_eq!(rt; &room, b"0123456...");
}

// A writer that fails with the error of this number.
#[derive(Drop)]
struct FailingWriter {
    number: i32,
}

impl Write for FailingWriter {
    fn write(&mut self, _bytes: &[u8]) -> io::Result<usize> {
        Err(error_of(self.number))
    }

    fn flush(&mut self) -> io::Result<()> {
        Ok(())
    }
}

#[test]
fn every_error_of_a_writer_is_a_fault(rt: HostRuntime) {
    for number in 0..134 {
        let mut sink = StdSink::new(FailingWriter { number });
        assert_eq!(rt; sink.put(b"abc"), Err(Failed), "error {number}");
    }
}
