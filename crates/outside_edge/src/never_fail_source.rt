ghost use Rattle.std.specs.Prelude.{◌≡◌, ◌≤◌, ◌+◌, Some, IsOk, length, min, IfOk, sum};
ghost use Rattle.outside_edge.specs.Source.{GivesBytes};

use crate::byte_queue::ByteQueue;
use crate::sink::Failed;
use crate::source::Source;
use std::marker::Model;

/// Bytes in memory, given piece by piece by a source that never fails.
#[derive(Drop)]
pub struct NeverFailSource {
    queue: ByteQueue,
}

impl Model for NeverFailSource {
    ghost use Rattle.outside_edge.specs.Source.{SureSource};

    ghost Value = { SureSource };

    ghost view = { λ source. source.queue };
}

impl NeverFailSource {
    /// A source that gives at most `most` bytes in one call.
    pub fn new(left: Vec<u8>, most: usize) -> NeverFailSource
        requires { 1 ≤ most }
        ensures { result ≡ record { left = left.items; given = 0; most = most } }
    {
        NeverFailSource {
            queue: ByteQueue::new(left, most),
        }
    }
}

impl Source for NeverFailSource {
    ghost left = { λ source. Some source.left };

    ghost given = { λ source. source.given };

    ghost asked = { λ source counts. source.given ≡ sum counts };

    ghost faults = { λ _. 0 };

    fn take(&mut self, piece: &mut [u8]) -> Result<usize, Failed>
        ensures never_failed { IsOk result }
        ensures amount { IfOk result (λ n.
            n ≡ min (length piece.old) (min self.old.most (length self.old.left))) }
        ensures within { IfOk result (λ n. n ≤ length piece.new) }
        ensures bytes { IfOk result (λ n.
            GivesBytes self.old.left self.new.left n piece.old piece.new) }
        ensures given { IfOk result (λ n. self.new.given ≡ self.old.given + n) }
        ensures most { self.new.most ≡ self.old.most }
    {
        Ok(self.queue.take(piece))
    }
}
