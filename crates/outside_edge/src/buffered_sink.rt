ghost use Rattle.std.specs.Prelude.{◌≡◌, [], ℕ, List, Ok, OnOk};
ghost use Rattle.outside_edge.specs.{Sink.{Takes, TakesPrefix, Puts, CountsFaults}, Buffer.{Buffer, BufferStandsFor}};

use crate::sink::{Failed, Sink, put_until_fault};
use arrayvec::ArrayVec;
use std::marker::Model;

// How many bytes wait at most.
const ROOM: usize = 8_192;

/// A sink whose bytes go to another one in pieces of some KiB. What waits would be lost with it, so
/// it can't be let go but by `finish`.
pub struct BufferedSink<W: Sink> {
    sink: W,
    waiting: ArrayVec<u8, ROOM>,
}

impl<W: Sink> Model for BufferedSink<W> {
    ghost use Rattle.outside_edge.specs.Buffer.{Buffer};

    ghost Value = { Buffer W };

    ghost view = { λ buffer. record { sink = buffer.sink; waiting = buffer.waiting.items } };
}

impl<W: Sink> BufferedSink<W> {
    /// A buffer with nothing in it, before a sink.
    pub fn new(sink: W) -> BufferedSink<W>
        ensures { result ≡ record { sink = sink; waiting = [] } }
    {
        BufferedSink {
            sink,
            waiting: ArrayVec::new_in(()),
        }
    }

    /// Puts what waits into the sink. After `Failed` the sink took a prefix of it, and the rest
    /// waits.
    pub fn flush(&mut self) -> Result<(), Failed>
        ensures stands { (list : List ℕ)
            → BufferStandsFor W.stands self.old list
            → BufferStandsFor W.stands self.new list }
        ensures all { OnOk result (self.new.waiting ≡ []) }
        ensures counts { CountsFaults W.faults self.old.sink self.new.sink result }
        ensures idle { self.old.waiting ≡ [] → (result ≡ Ok tt) × (self.new ≡ self.old) }
    {
        let (count, result) = put_until_fault(&mut self.sink, &self.waiting);
        self.waiting.drain(..count);
        result
    }

    /// Puts what waits into the sink, and gives the sink back. After `Failed` what the sink did
    /// not take is lost.
    pub fn finish(mut self) -> (W, Result<(), Failed>)
        ensures puts { (begun : Buffer W) (text : List ℕ)
            → begun.waiting ≡ []
            → Takes (BufferStandsFor W.stands) begun self text
            → Puts W.stands begun.sink result.0 text result.1 }
        ensures prefix { (begun : Buffer W) (text : List ℕ)
            → begun.waiting ≡ []
            → TakesPrefix (BufferStandsFor W.stands) begun self text
            → TakesPrefix W.stands begun.sink result.0 text }
        ensures counts { CountsFaults W.faults self.sink result.0 result.1 }
        ensures idle { self.waiting ≡ [] → result ≡ (self.sink, Ok tt) }
    {
        let result = self.flush();
        let BufferedSink { sink, waiting: _ } = self;
        (sink, result)
    }
}

impl<W: Sink> Sink for BufferedSink<W> {
    ghost stands = { BufferStandsFor W.stands };

    ghost faults = { λ buffer. W.faults buffer.sink };

    fn put(&mut self, piece: &[u8]) -> Result<usize, Failed> {
        if self.waiting.is_full() {
            self.flush()?;
        }
        let count = piece.len().min(self.waiting.remaining_capacity());
        let Ok(()) = self.waiting.try_extend_from_slice(&piece[..count]) else {
            unreachable!()
        };
        Ok(count)
    }
}
