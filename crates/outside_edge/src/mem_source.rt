ghost use Rattle.std.specs.Prelude.{◌≡◌, ◌≤◌, ◌+◌, ◌↔◌, Some, IsErr, Contains, length, min, IfOk, OnErr, sum};
ghost use Rattle.outside_edge.specs.{Calls.{with_call, with_fault}, Sink.CountsFaults, Source.GivesBytes};

use crate::byte_queue::ByteQueue;
use crate::failing_calls::FailingCalls;
use crate::sink::Failed;
use crate::source::Source;
use std::marker::Model;

/// Bytes in memory, given piece by piece by a source whose calls of some numbers fail.
#[derive(Drop)]
pub struct MemSource {
    queue: ByteQueue,
    counts: FailingCalls,
}

impl Model for MemSource {
    ghost use Rattle.outside_edge.specs.Source.{SourceInMemory};

    ghost Value = { SourceInMemory };

    ghost view = { λ source. record {
      left = source.queue.left;
      given = source.queue.given;
      most = source.queue.most;
      counts = source.counts;
    } };
}

impl MemSource {
    /// A source that gives at most `most` bytes in one call, and fails in the calls of these
    /// numbers, counted from 1.
    pub fn new(left: Vec<u8>, most: usize, failing: Vec<u64>) -> MemSource
        requires { 1 ≤ most }
        ensures { result ≡ record {
          left = left.items;
          given = 0;
          most = most;
          counts = record { failing = failing.items; calls = 0; faults = 0 };
        } }
    {
        MemSource {
            queue: ByteQueue::new(left, most),
            counts: FailingCalls::new(failing),
        }
    }
}

impl Source for MemSource {
    ghost left = { λ source. Some source.left };

    ghost given = { λ source. source.given };

    ghost asked = { λ source counts. source.given ≡ sum counts };

    ghost faults = { λ source. source.counts.faults };

    fn take(&mut self, piece: &mut [u8]) -> Result<usize, Failed>
        // It fails exactly in the calls that it is to fail in.
        ensures failed { IsErr result ↔ Contains self.old.counts.failing self.new.counts.calls }
        ensures amount { IfOk result (λ n.
            n ≡ min (length piece.old) (min self.old.most (length self.old.left))) }
        ensures within { IfOk result (λ n. n ≤ length piece.new) }
        ensures bytes { IfOk result (λ n.
            GivesBytes self.old.left self.new.left n piece.old piece.new) }
        ensures after { IfOk result (λ n. self.new ≡ record self.old {
          left = self.new.left;
          given = self.old.given + n;
          counts = with_call self.old.counts;
        }) }
        ensures kept { OnErr result (self.new ≡ record self.old {
          counts = with_fault (with_call self.old.counts);
        }) }
        ensures untouched { OnErr result (piece.new ≡ piece.old) }
        ensures counts { CountsFaults (λ source. source.counts.faults) self.old self.new result }
    {
        if self.counts.count_call() {
            self.counts.count_fault();
            return Err(Failed);
        }
        Ok(self.queue.take(piece))
    }
}
